// What can be wrong with a line of a path's text.

ghost use Rattle.std.specs.Prelude.{Some};
ghost use Rattle.compose.specs.PathFaults.{path_fault_text};

use console::fault::Fault;
use std::fmt;

// Which quantity is out of its range, in words that are written together.
#[derive(Clone, Copy)]
pub(crate) enum PathFault {
    Line(Fault),
    UnknownWord,
    OutOfRange(&'static str),
    DelayerTooLong,
    LinkMissing,
    DeclarationMissing,
    WantedMissing,
    LineMissing,
    LineTooMany,
}

impl fmt::Display for PathFault {
    ghost output = { λ why. Some (path_fault_text why) };

    fn fmt<W: fmt::Write>(&self, f: &mut fmt::Formatter<W>) -> fmt::Result {
        match self {
            PathFault::Line(why) => write!(f, "{why}"),
            PathFault::UnknownWord => write!(f, "unknown word"),
            PathFault::OutOfRange(what) => write!(f, "{what}"),
            PathFault::DelayerTooLong => write!(f, "delayer of more than 64 slots"),
            PathFault::LinkMissing => write!(f, "link is missing"),
            PathFault::DeclarationMissing => write!(f, "smooth, uniform or rows is missing here"),
            PathFault::WantedMissing => write!(f, "wanted is missing here"),
            PathFault::LineMissing => write!(f, "a line is missing"),
            PathFault::LineTooMany => write!(f, "a line too many"),
        }
    }
}

impl From<Fault> for PathFault {
    fn from(why: Fault) -> PathFault {
        PathFault::Line(why)
    }
}
