// The numbers of a line, read from left to right. Each step answers what stands behind what it read; where the line has ended, that is nothing.

use crate::fault::PathFault;
use console::fault::Fault;
use console::numbers::{narrow, numbers_of};
use console::tables::find;
use quantity::Quantity;
use text::decimal::decimal_at;

// The number that a text begins with, and what stands behind it.
#[tactic(auto, using(crate::proofs::Digits::next_within))]
pub(crate) fn number_of(text: Option<&[u8]>) -> Result<(u64, &[u8]), Fault> {
    let text = text.ok_or(Fault::TooFewNumbers)?;
    let number = decimal_at(text, 0)?;
    Ok((number.value, &text[number.next..]))
}

// The numbers that a text is, one or two.
pub(crate) fn all_numbers<const N: usize>(text: Option<&[u8]>) -> Result<[u64; N], Fault> {
    numbers_of(text.ok_or(Fault::TooFewNumbers)?)
}

// Behind a number come a space, the next one's label and a space. What is wrong is `none` at the line's end and `other` at another word.
pub(crate) fn behind_label<'a>(
    text: &'a [u8],
    label: &[u8],
    none: PathFault,
    other: PathFault,
) -> Result<Option<&'a [u8]>, PathFault> {
    match text {
        [] => Err(none),
        [b' ', rest @ ..] => {
            let found = find(&[(label, ())], rest).ok_or(other)?;
            Ok(found.behind)
        }
        _ => Err(PathFault::Line(Fault::NotANumber)),
    }
}

// A number as a quantity, or what is said where it is out of its range.
pub(crate) fn quantity_of<Q: Quantity>(
    number: u64,
    otherwise: &'static str,
) -> Result<Q, PathFault> {
    Q::checked(narrow(number)).ok_or(PathFault::OutOfRange(otherwise))
}
