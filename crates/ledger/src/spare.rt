// A link's spare rate (document 01, section 7).

ghost use Rattle.std.specs.Prelude.{◌≡◌, ◌+◌};
ghost use Rattle.quantity.specs.Ranges.{in_range, link_capacity_range};
ghost use Rattle.ledger.specs.Spare.{spare_of};
ghost use Rattle.ledger.specs.Steps.{left_of, spares_of};

use crate::Ledger;
use quantity::refusal::Refusal;
use quantity::{Link, LinkCapacity, Quantity, Rate};

// What a link's capacity leaves to further paths, or refusal 1 or 5. It is the stored total that counts: no record is lent.
pub fn spare_rate(ledger: Ledger, link: u32) -> Result<Rate, Refusal>
    ensures { result ≡ spare_of ledger link }
{
    // By `ok_or(..)?` the rates are copied, and a spare rate takes an eighth longer.
    let Some(spares) = spare_rates(ledger) else {
        return Err(Refusal::Unusable);
    };
    let Some(link) = Link::checked(link) else {
        return Err(Refusal::OutOfRange(0));
    };
    Ok(spares[link.0 as usize])
}

// What each link has to spare, if the links can be used. All are tested in one pass without a branch, and the rates of all are kept: the asked one is then read without a copy of the ledger.
// By the link's number: its capacity, total and rate are found by it.
fn spare_rates(ledger: Ledger) -> Option<[Rate; 16]>
    ensures { result ≡ spares_of ledger }
{
    let mut fit = true;
    let mut rates = [Rate(0); 16];
    for link in 0..crate::LINKS {
        let capacity = ledger.capacities[link];
        let total = ledger.totals[link];
        let rate = left(capacity, total);
        fit &= fits(total, rate);
        rates[link] = rate;
    }
    if fit { Some(rates) } else { None }
}

// What a capacity leaves beside a total. Where the total is above the capacity, the difference wraps.
fn left(capacity: LinkCapacity, total: Rate) -> Rate
    ensures { result ≡ record { 0 = left_of capacity.0 total.0 } }
{
    Rate(capacity.0.wrapping_sub(total.0))
}

// Whether a total and what is left beside it come to a capacity in its range. Where the difference wrapped, they do not.
fn fits(total: Rate, rate: Rate) -> bool
    ensures { result ≡ in_range link_capacity_range (total.0 + rate.0) }
{
    total.0 <= LinkCapacity::LARGEST && rate.0 <= LinkCapacity::LARGEST - total.0
}
