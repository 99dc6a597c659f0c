// Confirming a held path (document 02, item 8).

ghost use Rattle.std.specs.Prelude.{◌≡◌};
ghost use Rattle.ledger.specs.Confirming.{confirmed_of, records_confirmed};

use crate::test::find;
use crate::{Ledger, Record};
use quantity::refusal::Refusal;

// Confirms the held path of a number, or answers refusal 1, 10 or 16. The ledger is as it was, confirmed or not; refused, the records are too.
pub fn confirm(ledger: Ledger, records: &mut [Record], number: u32) -> Result<(), Refusal>
    ensures { (result ≡ confirmed_of ledger records.old number) × (records.new ≡ records_confirmed ledger records.old number) }
{
    let standing = find(ledger, records, number, Refusal::PathNumberWrong)?;
    if standing.found.mark == crate::CONFIRMED {
        return Err(Refusal::ConfirmedAlready);
    }
    records[standing.at].mark = crate::CONFIRMED;
    Ok(())
}
