// What a line of a path's text says by itself, wherever it stands.

use crate::fault::PathFault;
use crate::numbers::{all_numbers, behind_label, number_of, quantity_of};
use crate::profile::house_of;
use console::fault::Fault;
use console::numbers::pairs_of;
use console::tables::{Found, find};
use flow::{Declaration, DeclaredRow, Kind};
use operator::Operator;
use quantity::{Quantity, WantedDelay};
use sheet::{House, LinkedOperator};

// A part of a path, with its numbers in their ranges.
#[derive(Clone, Copy)]
pub(crate) enum Part {
    Declared(Declaration),
    House(House),
    Wanted(WantedDelay),
    Operator(LinkedOperator),
}

// The words that a line begins with.
#[derive(Clone, Copy)]
enum Word {
    Limiter,
    Compactor,
    Expander,
    Filter,
    Delayer,
    Wanted,
    Profile,
    Smooth,
    Uniform,
    Rows,
}

const WORDS: [(&[u8], Word); 10] = [
    (b"limiter", Word::Limiter),
    (b"compactor", Word::Compactor),
    (b"expander", Word::Expander),
    (b"filter", Word::Filter),
    (b"delayer", Word::Delayer),
    (b"wanted", Word::Wanted),
    (b"profile", Word::Profile),
    (b"smooth", Word::Smooth),
    (b"uniform", Word::Uniform),
    (b"rows", Word::Rows),
];

pub(crate) fn part_of(line: &[u8]) -> Result<Part, PathFault> {
    let Found { what, behind } = find(&WORDS, line).ok_or(PathFault::UnknownWord)?;
    match what {
        Word::Limiter => linked(behind, Operator::Limiter, "rate out of range"),
        Word::Compactor => linked(behind, Operator::Compactor, "interval out of range"),
        Word::Expander => linked(behind, Operator::Expander, "interval out of range"),
        Word::Filter => linked(behind, Operator::Filter, "rate out of range"),
        Word::Delayer => linked(behind, Operator::Delayer, "delay out of range"),
        Word::Wanted => wanted(behind),
        Word::Profile => Ok(Part::House(house_of(behind)?)),
        Word::Smooth => one_row(behind, Kind::Smooth),
        Word::Uniform => one_row(behind, Kind::Uniform),
        Word::Rows => rows(behind),
    }
}

// `limiter R link k`, and so for each operator
fn linked<Q: Quantity, F: Fn(Q) -> Operator>(
    text: Option<&[u8]>,
    operator: F,
    name: &'static str,
) -> Result<Part, PathFault>
    requires { F.IsAlwaysCallable operator }
{
    let (number, rest) = number_of(text)?;
    let behind = behind_label(
        rest,
        b"link",
        PathFault::LinkMissing,
        PathFault::LinkMissing,
    )?;
    let [link] = all_numbers::<1>(behind)?;
    let operator = operator(quantity_of(number, name)?);
    let link = quantity_of(link, "link out of range")?;
    Ok(Part::Operator(LinkedOperator { operator, link }))
}

// `wanted N`
fn wanted(text: Option<&[u8]>) -> Result<Part, PathFault> {
    let [wanted] = all_numbers::<1>(text)?;
    Ok(Part::Wanted(quantity_of(wanted, "delay wanted out of range")?))
}

// `smooth m Q` or `uniform m Q`
fn one_row(text: Option<&[u8]>, kind: Kind) -> Result<Part, PathFault> {
    let row = row_of(all_numbers(text)?)?;
    Ok(Part::Declared(Declaration::of_one_row(kind, row.interval, row.quota)))
}

// `rows m Q m Q ..`: there may be four, and the writer tests how many there are and in which order. A fifth is counted, and left out.
fn rows(text: Option<&[u8]>) -> Result<Part, PathFault> {
    let mut numbers = [0; 10];
    let count = pairs_of(text.ok_or(Fault::TooFewNumbers)?, &mut numbers)? / 2;
    let mut rows = [DeclaredRow::CLEAR; 5];
    let (pairs, _) = numbers.as_chunks::<2>();
    for (row, pair) in rows.iter_mut().zip(pairs).take(count) {
        *row = row_of(*pair)?;
    }
    let [first, second, third, fourth, _] = rows;
    Ok(Part::Declared(Declaration::of_rows(count, [first, second, third, fourth])))
}

fn row_of([interval, quota]: [u64; 2]) -> Result<DeclaredRow, PathFault> {
    Ok(DeclaredRow {
        interval: quantity_of(interval, "interval out of range")?,
        quota: quantity_of(quota, "quota out of range")?,
    })
}
