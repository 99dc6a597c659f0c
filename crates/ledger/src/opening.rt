// A new ledger (document 01, sections 6 and 7).

ghost use Rattle.std.specs.Prelude.{◌≡◌};
ghost use Rattle.ledger.specs.Opening.{no_ledger, opened_of, records_opened};
ghost use Rattle.ledger.specs.Steps.{checked_of};

use crate::{Ledger, Record, no_record};
use quantity::refusal::Refusal;
use quantity::{LinkCapacity, Quantity, Rate};

// Opens a ledger of sixteen links and clears all records, whatever they held; or answers refusal 1 or 5, and leaves them.
pub fn open(capacities: [u32; 16], records: &mut [Record]) -> Result<Ledger, Refusal>
    ensures { (result ≡ opened_of capacities records.old) × (records.new ≡ records_opened capacities records.old) }
{
    if records.len() != crate::RECORDS {
        return Err(Refusal::Unusable);
    }
    let ledger = check(capacities).ok_or(Refusal::OutOfRange(0))?;
    records.fill(no_record());
    Ok(ledger)
}

// The ledger that has these capacities, if each is in its range.
fn check(capacities: [u32; 16]) -> Option<Ledger>
    ensures { result ≡ checked_of capacities }
{
    let mut ledger = no_ledger();
    // tried: a zip of both lists, the ledger's by `iter_mut`; its proof did not close.
    for link in 0..crate::LINKS {
        let capacity = LinkCapacity::checked(capacities[link])?;
        ledger.capacities[link] = capacity;
    }
    Some(ledger)
}

// The ledger of links without capacity, in which no path stands. A value and no Option: any call takes it.
pub fn no_ledger() -> Ledger
    ensures { result ≡ no_ledger }
{
    Ledger {
        capacities: [LinkCapacity(0); 16],
        totals: [Rate(0); 16],
        count: 0,
    }
}
