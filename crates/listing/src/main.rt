// Reads at most 256 bytes of one sheet from standard input and lists its figures (document 01, section 8).

#![tactic(auto)]

use console::input::read_full;
use console::listing::list;
use std::io;

fn main(rt: HostRuntime) -> io::Result<()> {
    let mut bytes = [0u8; 256];
    let n = read_full(&mut rt.stdin(), &mut bytes)?;
    list(&mut rt.stdout(), &bytes[..n])
}
