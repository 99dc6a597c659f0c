// Release of a path (document 01, sections 6 and 7).

ghost use Rattle.std.specs.Prelude.{◌≡◌, ℕ, ◌<◌, ◌≤◌, length};
ghost use Rattle.ledger.specs.Records.{no_record, share};
ghost use Rattle.ledger.specs.Ledgers.{link_count, record_count};
ghost use Rattle.ledger.specs.Release.{closed_up, released_of, records_released};
ghost use Rattle.ledger.specs.Steps.{rate_at, discharged};

use crate::test::{find, share_on};
use crate::{Ledger, Record, no_record};
use quantity::Rate;
use quantity::refusal::Refusal;

// Releases the path of a number and answers the ledger without it, or refusal 1 or 10. Refused, the records are as they were.
pub fn release(ledger: Ledger, records: &mut [Record], number: u32) -> Result<Ledger, Refusal>
    ensures { (result ≡ released_of ledger records.old number) × (records.new ≡ records_released ledger records.old number) }
{
    let standing = find(ledger, records, number, Refusal::PathNumberWrong)?;
    let capacities = ledger.capacities;
    let totals = ledger.totals;
    let left = discharge(totals, standing.found);
    close_up(records, standing.at);
    Ok(Ledger {
        capacities,
        totals: left,
        count: ledger.count - 1,
    })
}

// The records behind a place move up by one, and the last is the clear one.
fn close_up(records: &mut [Record], at: usize)
    requires { (length records.old ≡ record_count) × (at < record_count) }
    ensures { records.new ≡ closed_up records.old at no_record }
{
    records.copy_within(at + 1.., at);
    records[crate::LAST] = no_record();
}

// Each link's total without a record's share. It stands apart from `charge`: one function of both would ask more of its closure than this loop is long.
fn discharge(totals: [Rate; 16], gone: Record) -> [Rate; 16]
    requires { (link : ℕ) → link < link_count → share gone link ≤ (rate_at totals link).0 }
    ensures { result ≡ discharged totals gone }
{
    let mut left = totals;
    for (link, total) in left.iter_mut().enumerate() {
        let share = share_on(gone, link);
        *total = Rate(total.0 - share.0);
    }
    left
}
