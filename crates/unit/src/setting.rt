// What is set to a number of a command.

use console::fault::Failure;
use console::numbers::{narrow, numbers_of};
use quantity::{Slots, Units};
use std::io;
use std::io::Write;

// `set slot N`
pub(crate) fn set_slot<W: Write>(out: &mut W, text: &[u8]) -> Result<Slots, Failure> {
    let [number] = numbers_of::<1>(text)?;
    let slot = narrow(number);
    say_set(out, "slot ", u64::from(slot))?;
    Ok(Slots(slot))
}

// `set held N`, and so for the other amounts
pub(crate) fn set_units<W: Write>(out: &mut W, what: &str, text: &[u8]) -> Result<Units, Failure> {
    let [number] = numbers_of::<1>(text)?;
    say_set(out, what, number)?;
    Ok(Units(number))
}

// The word comes with the space behind it: each piece of a line is written by itself.
fn say_set<W: Write>(out: &mut W, what: &str, number: u64) -> io::Result<()> {
    writeln!(out, "set {what}{number}")
}
