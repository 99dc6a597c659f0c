// A path and its sheet: the reader and the writer (document 01, sections 5 and 7).

#![tactic(auto)]

ghost use Rattle.std.specs.Prelude.{◌≡◌, ◌+◌, ◌*◌, ◌≤◌};
ghost use Rattle.sheet.specs.Bodies.{operator_byte, operator_number, operator_in_range};
ghost use Rattle.sheet.specs.House.{house_in_range};
ghost use Rattle.sheet.specs.Forms.{no_path};

use flow::{Declaration, Kind};
use operator::Operator;
use quantity::{Hops, Interval, Link, Packet, Quantity, Quota, Rate, WantedDelay};

mod profile;
pub mod read;
pub mod write;

// Section 5: a field's first bytes are its tag and its body's length.
const HEADER: usize = 3;

// A kind of field: its tag and its body's length.
#[derive(Clone, Copy)]
struct Format {
    tag: u8,
    width: usize,
}

// The declaration begins at the sheet's start, and so does a house profile.
const DECLARATION_AT: usize = 0;

const HOUSE_AT: usize = 0;

const DECLARATION: Format = Format {
    tag: 0x01,
    width: 7,
};

// Document 02, item 6: 05 stands in place of 01, with a body of so many bytes for each row.
const ROWS_TAG: u8 = 0x05;

const ROW_WIDTH: usize = 6;

const WANTED: Format = Format {
    tag: 0x02,
    width: 4,
};

const OPERATOR: Format = Format {
    tag: 0x03,
    width: 6,
};

const HOUSE: Format = Format {
    tag: 0x04,
    width: 22,
};

impl Format {
    // A field 05 of so many rows.
    fn of_rows(count: usize) -> Format
        requires { count ≤ 4 }
        ensures { result ≡ record { tag = 0x05; width = count * 6 } }
    {
        Format {
            tag: ROWS_TAG,
            width: count * ROW_WIDTH,
        }
    }

    // Where a field that begins at a byte ends.
    fn end(self, at: usize) -> usize
        requires { at + self.width ≤ 256 }
        ensures { result ≡ at + 3 + self.width }
    {
        at + HEADER + self.width
    }
}

// An operator of a path and the link that it is on.
#[derive(Clone, Copy)]
pub struct LinkedOperator {
    pub operator: Operator,
    pub link: Link,
}

impl LinkedOperator {
    // What stands behind the last operator of a path value.
    const NONE: LinkedOperator = LinkedOperator {
        operator: Operator::Limiter(Rate(0)),
        link: Link(0),
    };
}

// A house profile (document 02, item 2): which it is, its hops, the delay wanted, m, Q, R, the own longest packet L, the longest packet of all X and the link rate C. `write` is asked of any number of a profile and refuses those above 2, so an enum of three would ask more of its callers.
#[derive(Clone, Copy)]
pub struct House {
    pub profile: u8,
    pub hops: Hops,
    pub wanted: WantedDelay,
    pub interval: Interval,
    pub quota: Quota,
    pub rate: Rate,
    pub own_packet: Packet,
    pub longest_packet: Packet,
    pub link_rate: Rate,
}

impl House {
    // Refusal 5 of the nine numbers: each that the profile uses is in its range, the others are 0, and a delayer has at most 64 slots.
    pub fn in_range(self) -> bool
        ensures { result ≡ house_in_range self }
    {
        profile::in_range(self)
    }
}

// A path is written out in fields 01 or 05, 02 and 03, or it is a house profile.
#[derive(Clone, Copy)]
pub enum Form {
    Fields,
    House(House),
}

// A path is its declaration, its delay wanted and the first `count` of its operators. In the house form these are what the nine numbers stand for.
#[derive(Clone, Copy)]
pub struct PathValue {
    pub form: Form,
    pub declaration: Declaration,
    pub wanted: WantedDelay,
    // No heap: an array with its count (document 01 names the form for rows).
    pub count: usize,
    pub operators: [LinkedOperator; 16],
}

// The empty path. A value and no Option: it fills the places behind the last (no heap).
pub fn no_path() -> PathValue
    ensures { result ≡ no_path }
{
    PathValue {
        form: Form::Fields,
        declaration: Declaration::of_one_row(Kind::Smooth, Interval(0), Quota(0)),
        wanted: WantedDelay(0),
        count: 0,
        operators: [LinkedOperator::NONE; 16],
    }
}

// An operator's kind as a sheet numbers it, a limiter's is 0, and the operator's number.
#[tactic(auto, unfolding(crate::specs::Bodies::operator_byte, crate::specs::Bodies::operator_number))]
pub fn kind_and_number(operator: Operator) -> (u8, u32)
    ensures { (result.0 ≡ operator_byte operator) × (result.1 ≡ operator_number operator) }
{
    match operator {
        Operator::Limiter(rate) => (0, rate.0),
        Operator::Compactor(interval) => (1, interval.0),
        Operator::Expander(interval) => (2, interval.0),
        Operator::Filter(rate) => (3, rate.0),
        Operator::Delayer(delay) => (4, delay.0),
    }
}

// Whether the operator's number and the link are in their ranges.
#[tactic(auto, unfolding(crate::specs::Bodies::operator_in_range))]
fn operator_in_range(linked: LinkedOperator) -> bool
    ensures { result ≡ operator_in_range linked }
{
    linked.operator.number_in_range() && linked.link.in_range()
}
