// Works out the most that the standard camera's rows, (1, 9), (3, 15), (12, 48), allow in 1 to 1,024 slots, and prints it, one number a line (document 02, item 7).
// The numbers are the bound's, which does not read the constant table. The gate holds them to the lines stored beside this program; that the bound and the table agree is the computed test in the proofs of `figures`.

#![tactic(auto)]

use flow::bound::{LENGTH, fill};
use flow::{Declaration, DeclaredRow};
use std::io;
use std::io::Write;

// As many slots as the constant table has.
const SLOTS: usize = 1024;

fn main(rt: HostRuntime) -> io::Result<()> {
    let rows = [
        DeclaredRow::of(1, 9),
        DeclaredRow::of(3, 15),
        DeclaredRow::of(12, 48),
        DeclaredRow::CLEAR,
    ];
    let mut bound = [0; LENGTH];
    fill(Declaration::of_rows(3, rows), &mut bound);
    print(&mut rt.stdout(), &bound[1..SLOTS + 1])
}

// The numbers, one a line.
fn print<W: Write>(out: &mut W, numbers: &[u32]) -> io::Result<()> {
    for number in numbers {
        writeln!(out, "{number}")?;
    }
    Ok(())
}
