// The ledger of links: which paths stand, and what they reserve (document 01, sections 6 and 7).

#![tactic(auto)]

ghost use Rattle.std.specs.Prelude.{◌≡◌, ◌==◌};
ghost use Rattle.ledger.specs.Records.{mark_held, no_record, is_on};

use crate::test::has_link;
use quantity::{Link, LinkCapacity, PathNumber, Quantity, Rate};

pub mod confirming;
pub mod holding;
pub mod opening;
pub mod release;
pub mod spare;
mod test;

// The most paths that stand.
const RECORDS: usize = 64;

// The last record's place.
const LAST: usize = 63;

const LINKS: usize = 16;

// All links, as bits.
const ALL_LINKS: u32 = 0xFFFF;

// The mark of a path that is held, and of one that is confirmed.
const HELD: u32 = 0;

const CONFIRMED: u32 = 1;

// A path that stands: its number, what it reserves on each link that it names, these links as 16 bits, bit i for link i, and its mark, 0 while it is held and 1 once it is confirmed.
// The links and the mark are numbers: a lent record may hold any, which is tested (refusal 1).
#[derive(Clone, Copy)]
pub struct Record {
    pub number: PathNumber,
    pub rate: Rate,
    pub links: u32,
    pub mark: u32,
}

impl Record {
    // Whether the path is on a link. None is on a link outside its range.
    pub fn is_on(self, link: Link) -> bool
        ensures { result ≡ is_on self link.0 }
    {
        link.in_range() && has_link(self.links, link.0 as usize)
    }

    // Whether the path is held, and not confirmed.
    pub fn is_held(self) -> bool
        ensures { result ≡ self.mark == mark_held }
    {
        self.mark == HELD
    }
}

// The capacities of the sixteen links, what the paths that stand reserve on each, and how many stand. Their records are lent.
#[derive(Clone, Copy)]
pub struct Ledger {
    pub capacities: [LinkCapacity; 16],
    pub totals: [Rate; 16],
    pub count: usize,
}

// The clear record, in which no path stands. A value and no Option: it fills the places behind the last (no heap).
pub fn no_record() -> Record
    ensures { result ≡ no_record }
{
    Record {
        number: PathNumber(0),
        rate: Rate(0),
        links: 0,
        mark: 0,
    }
}
