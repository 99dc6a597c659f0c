// What is said of a line in place of an answer: what is wrong with it, or the refusal of what it asks.

ghost use Rattle.std.specs.Prelude.{Some, OnOk};
ghost use Rattle.std.specs.Io.KnownBytes.{Appends};
ghost use Rattle.console.specs.Faults.{fault_text};
ghost use Rattle.console.specs.Printed.{said};

use crate::print::{error, refused};
use quantity::refusal::Refusal;
use std::io::Write;
use std::{fmt, io};
use text::decimal::{NumberFault, NumbersFault};
use text::hexadecimal::HexadecimalFault;

// What can be wrong with a line.
#[derive(Clone, Copy)]
pub enum Fault {
    LineTooLong,
    UnknownCommand,
    NotANumber,
    NumberTooLarge,
    TooManyNumbers,
    TooFewNumbers,
    NotHexadecimal,
    SheetTooLong,
    CapacitiesSet,
    NoPath,
    NoUnit,
    NotAMeter,
    NotAnOperator,
    NoSuchWord,
}

impl fmt::Display for Fault {
    ghost output = { λ why. Some (fault_text why) };

    fn fmt<W: fmt::Write>(&self, f: &mut fmt::Formatter<W>) -> fmt::Result {
        f.write_str(match self {
            Fault::LineTooLong => "line too long",
            Fault::UnknownCommand => "unknown command",
            Fault::NotANumber => "not a number",
            Fault::NumberTooLarge => "number too large",
            Fault::TooManyNumbers => "too many numbers",
            Fault::TooFewNumbers => "too few numbers",
            Fault::NotHexadecimal => "not hexadecimal",
            Fault::SheetTooLong => "sheet too long",
            Fault::CapacitiesSet => "capacities are set before the first path is held",
            Fault::NoPath => "no path",
            Fault::NoUnit => "no unit",
            Fault::NotAMeter => "not a meter",
            Fault::NotAnOperator => "not an operator",
            Fault::NoSuchWord => "no such word",
        })
    }
}

impl From<NumberFault> for Fault {
    fn from(why: NumberFault) -> Fault {
        match why {
            NumberFault::NoDigit => Fault::NotANumber,
            NumberFault::TooLarge => Fault::NumberTooLarge,
        }
    }
}

impl From<NumbersFault> for Fault {
    fn from(why: NumbersFault) -> Fault {
        match why {
            NumbersFault::NotANumber => Fault::NotANumber,
            NumbersFault::TooLarge => Fault::NumberTooLarge,
            NumbersFault::TooMany => Fault::TooManyNumbers,
        }
    }
}

impl From<HexadecimalFault> for Fault {
    fn from(why: HexadecimalFault) -> Fault {
        match why {
            HexadecimalFault::NotHexadecimal => Fault::NotHexadecimal,
            HexadecimalFault::TooLong => Fault::SheetTooLong,
        }
    }
}

// Why a line is not answered. An error of the writer ends the program.
#[derive(Drop)]
pub enum Failure {
    Wrong(Fault),
    Refused(Refusal),
    Io(io::Error),
}

impl From<Fault> for Failure {
    fn from(why: Fault) -> Failure {
        Failure::Wrong(why)
    }
}

impl From<Refusal> for Failure {
    fn from(why: Refusal) -> Failure {
        Failure::Refused(why)
    }
}

impl From<io::Error> for Failure {
    fn from(why: io::Error) -> Failure {
        Failure::Io(why)
    }
}

// A line that is not answered is an error or refused.
pub fn say<W: Write>(out: &mut W, line: u64, answered: Result<(), Failure>) -> io::Result<()>
    ensures { OnOk result (Appends (W.contents out.old) (W.contents out.new) (said line answered)) }
{
    match answered {
        Ok(()) => Ok(()),
        Err(Failure::Wrong(why)) => error(out, line, why),
        Err(Failure::Refused(why)) => refused(out, why),
        Err(Failure::Io(why)) => Err(why),
    }
}
