// Reads at most 256 bytes of one sheet from standard input and prints its page (document 02, item 4).

#![tactic(auto)]

use console::input::read_full;
use console::paper::print_page;
use std::io;

fn main(rt: HostRuntime) -> io::Result<()> {
    let mut bytes = [0u8; 256];
    let n = read_full(&mut rt.stdin(), &mut bytes)?;
    print_page(&mut rt.stdout(), &bytes[..n])
}
