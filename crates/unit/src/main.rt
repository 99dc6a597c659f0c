// A single operator or a meter from text: one command a line (document 01, sections 2, 3, 6 and 7).
//     limiter R, compactor m, expander m, filter R, delayer d    a new operator, in slot 0 and all else 0; answered by nothing
//     meter smooth m Q, meter uniform m Q, meter rows m Q m Q .. a new meter, likewise
//     step INPUT CHOICE    an operator's step: slot S least L greatest G output O held H
//     bounds INPUT         what its output may be: slot S least L greatest G
//     take INPUT           a meter's input: slot S room R taken N
//     room                 the most that it may be: slot S room R
//     set slot N, set held N, set beside N, set block N, set word J N    any state; answered by what is set
//     state                slot S held B beside H of an operator, slot S block B of a meter
//     words N              the first N words
// Before the first unit any other line is `no unit`. A number wider than its field is the field's largest, which is out of every range.

#![tactic(auto)]

use crate::command::{WORDS, Word};
use console::fault::{Failure, Fault, say};
use console::input::each_line;
use console::numbers::{narrow, numbers_of, pairs_of};
use console::rows::rows_of;
use console::tables::{Found, find};
use flow::{Declaration, Kind};
use meter::SourceMeter;
use operator::{Operator, SingleOperator};
use quantity::{Delay, Interval, Quota, Rate, Slots, Units};
use std::io;
use std::io::Write;

mod command;
mod lent;
mod metering;
mod setting;
mod single;

// The unit there is.
#[derive(Clone, Copy)]
enum Unit {
    Missing,
    Alone(SingleOperator),
    Metering(SourceMeter),
}

fn main(rt: HostRuntime) -> io::Result<()> {
    let mut out = rt.stdout();
    let mut words = [0u32; 1024];
    let mut unit = Unit::Missing;
    each_line(&mut rt.stdin(), |line| {
        let answered = answer(&mut out, &mut unit, line.text(), &mut words);
        say(&mut out, line.number, answered)?;
        Ok(true)
    })?;
    Ok(())
}

// Of the lent words an operator has the first 64, a meter has all.
fn answer<W: Write>(
    out: &mut W,
    unit: &mut Unit,
    line: Option<&[u8]>,
    words: &mut [u32; 1024],
) -> Result<(), Failure> {
    let line = line.ok_or(Fault::LineTooLong)?;
    let command = find(&WORDS, line);
    if let Some(new) = new_unit(command)? {
        words.fill(0);
        *unit = new;
        return Ok(());
    }
    match unit {
        Unit::Missing => Err(Failure::Wrong(Fault::NoUnit)),
        Unit::Alone(state) => single::answer(out, state, command, &mut words[..64]),
        Unit::Metering(state) => metering::answer(out, state, command, words),
    }
}

// The unit that a command makes, if it makes one.
fn new_unit(command: Option<Found<Word>>) -> Result<Option<Unit>, Fault> {
    let Some(
        Found {
            what,
            behind: Some(text),
        },
    ) = command
    else {
        return Ok(None);
    };
    let unit = match what {
        Word::Limiter => alone(Operator::Limiter(Rate(number_of(text)?))),
        Word::Compactor => alone(Operator::Compactor(Interval(number_of(text)?))),
        Word::Expander => alone(Operator::Expander(Interval(number_of(text)?))),
        Word::Filter => alone(Operator::Filter(Rate(number_of(text)?))),
        Word::Delayer => alone(Operator::Delayer(Delay(number_of(text)?))),
        Word::SmoothMeter => metered(one_row(Kind::Smooth, text)?),
        Word::UniformMeter => metered(one_row(Kind::Uniform, text)?),
        Word::RowsMeter => metered(rows(text)?),
        _ => return Ok(None),
    };
    Ok(Some(unit))
}

fn number_of(text: &[u8]) -> Result<u32, Fault> {
    let [number] = numbers_of::<1>(text)?;
    Ok(narrow(number))
}

// `meter smooth m Q` or `meter uniform m Q`
fn one_row(kind: Kind, text: &[u8]) -> Result<Declaration, Fault> {
    let [interval, quota] = numbers_of::<2>(text)?;
    Ok(Declaration::of_one_row(kind, Interval(narrow(interval)), Quota(narrow(quota))))
}

// `meter rows m Q m Q ..`: how many rows there may be, and in which order, the meter tests.
fn rows(text: &[u8]) -> Result<Declaration, Fault> {
    let mut numbers = [0; 10];
    let count = pairs_of(text, &mut numbers)?;
    Ok(Declaration::of_rows(count / 2, rows_of(&numbers)))
}

// A new unit is in slot 0, and all else is 0.
fn alone(operator: Operator) -> Unit {
    Unit::Alone(SingleOperator {
        operator,
        slot: Slots(0),
        held: Units(0),
        beside: Units(0),
    })
}

fn metered(declaration: Declaration) -> Unit {
    Unit::Metering(SourceMeter {
        declaration,
        slot: Slots(0),
        block: Units(0),
    })
}
