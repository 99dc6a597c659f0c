// The ledger's calls over records by value: each that needs them lends them and hands them back.

#![tactic(auto)]

ghost use Rattle.std.specs.Prelude.{◌≡◌};
ghost use Rattle.ledger.specs.Opening.{opened_of, records_opened};
ghost use Rattle.ledger.specs.Holding.{holding_of, records_held};
ghost use Rattle.ledger.specs.Confirming.{confirmed_of, records_confirmed};
ghost use Rattle.ledger.specs.Release.{released_of, records_released};

use ledger::confirming::confirm;
use ledger::holding::{Holding, hold};
use ledger::opening::open;
use ledger::release::release;
use ledger::{Ledger, Record};
use quantity::refusal::Refusal;

// What a call answers, and the records that it was lent.
#[derive(Clone, Copy)]
pub struct Returned<T> {
    pub answer: Result<T, Refusal>,
    pub records: [Record; 64],
}

pub fn open_book(capacities: [u32; 16], records: [Record; 64]) -> Returned<Ledger>
    ensures { (result.answer ≡ opened_of capacities records) × (result.records ≡ records_opened capacities records) }
{
    let mut lent = records;
    let answer = open(capacities, &mut lent);
    Returned {
        answer,
        records: lent,
    }
}

pub fn hold_path(
    ledger: Ledger,
    records: [Record; 64],
    number: u32,
    sheet: &[u8],
) -> Returned<Holding>
    ensures { (result.answer ≡ holding_of ledger records number sheet.now) × (result.records ≡ records_held ledger records number sheet.now) }
{
    let mut lent = records;
    let answer = hold(ledger, &mut lent, number, sheet);
    Returned {
        answer,
        records: lent,
    }
}

pub fn confirm_path(ledger: Ledger, records: [Record; 64], number: u32) -> Returned<()>
    ensures { (result.answer ≡ confirmed_of ledger records number) × (result.records ≡ records_confirmed ledger records number) }
{
    let mut lent = records;
    let answer = confirm(ledger, &mut lent, number);
    Returned {
        answer,
        records: lent,
    }
}

pub fn release_path(ledger: Ledger, records: [Record; 64], number: u32) -> Returned<Ledger>
    ensures { (result.answer ≡ released_of ledger records number) × (result.records ≡ records_released ledger records number) }
{
    let mut lent = records;
    let answer = release(ledger, &mut lent, number);
    Returned {
        answer,
        records: lent,
    }
}
