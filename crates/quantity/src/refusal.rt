// The refusals of document 01, section 7, in checking order, and of document 02, each with its place where it has one.

ghost use Rattle.std.specs.Prelude.{◌≡◌, Some};
ghost use Rattle.quantity.specs.Refusals.{refusal_number, refusal_place, refusal_text};

use std::error::Error;
use std::fmt;

// The place is the field's first byte, counted from the sheet's start, or the operator's index.
#[derive(Clone, Copy, Debug, PartialEq, Eq)]
pub enum Refusal {
    // 1: lent memory, a value, an amount or a slot number that cannot be used.
    Unusable,
    // 2
    HeaderCutOff(usize),
    // 3
    FieldUnexpected(usize),
    // 4
    BodyCutOff(usize),
    // 5
    OutOfRange(usize),
    // 6
    FramedAfterFilter(usize),
    // 7
    FigureTooLarge(usize),
    // 8
    RateTooLow(usize),
    // 9
    DelayAboveWanted,
    // 10
    PathNumberWrong,
    // 11
    LedgerFull,
    // 12
    LinkShort,
    // 13
    InputBreaksDeclaration,
    // 14
    ChoiceAboveGreatest(usize),
    // 15, tested behind 5 in its field (document 02, item 6).
    RowsOutOfOrder(usize),
    // 16
    ConfirmedAlready,
}

impl Refusal {
    // Section 7's number of a refusal.
    pub fn number(self) -> u32
        ensures { result ≡ refusal_number self }
    {
        match self {
            Refusal::Unusable => 1,
            Refusal::HeaderCutOff(_) => 2,
            Refusal::FieldUnexpected(_) => 3,
            Refusal::BodyCutOff(_) => 4,
            Refusal::OutOfRange(_) => 5,
            Refusal::FramedAfterFilter(_) => 6,
            Refusal::FigureTooLarge(_) => 7,
            Refusal::RateTooLow(_) => 8,
            Refusal::DelayAboveWanted => 9,
            Refusal::PathNumberWrong => 10,
            Refusal::LedgerFull => 11,
            Refusal::LinkShort => 12,
            Refusal::InputBreaksDeclaration => 13,
            Refusal::ChoiceAboveGreatest(_) => 14,
            Refusal::RowsOutOfOrder(_) => 15,
            Refusal::ConfirmedAlready => 16,
        }
    }

    // Section 7's place of a refusal.
    pub fn place(self) -> usize
        ensures { result ≡ refusal_place self }
    {
        match self {
            Refusal::HeaderCutOff(at)
            | Refusal::FieldUnexpected(at)
            | Refusal::BodyCutOff(at)
            | Refusal::OutOfRange(at)
            | Refusal::FramedAfterFilter(at)
            | Refusal::FigureTooLarge(at)
            | Refusal::RateTooLow(at)
            | Refusal::ChoiceAboveGreatest(at)
            | Refusal::RowsOutOfOrder(at) => at,
            Refusal::Unusable
            | Refusal::DelayAboveWanted
            | Refusal::PathNumberWrong
            | Refusal::LedgerFull
            | Refusal::LinkShort
            | Refusal::InputBreaksDeclaration
            | Refusal::ConfirmedAlready => 0,
        }
    }
}

// `refused`, the number and the place.
impl fmt::Display for Refusal {
    ghost output = { λ why. Some (refusal_text why) };

    fn fmt<W: fmt::Write>(&self, f: &mut fmt::Formatter<W>) -> fmt::Result {
        let number = self.number();
        let place = self.place();
        write!(f, "refused {number} {place}")
    }
}

impl Error for Refusal {}
