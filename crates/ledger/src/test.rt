// The first step of holding, confirming and release: each stored value is tested once (document 01, section 7, 1).

ghost use Rattle.std.specs.Prelude.{◌≡◌, ℕ, ◌%◌, ◌^◌, ◌<◌, ◌≤◌, List, length, ◌==◌, slice_index, position};
ghost use Rattle.quantity.specs.Sums.{every, list_of};
ghost use Rattle.ledger.specs.declared.Record.{Record};
ghost use Rattle.ledger.specs.Records.{record_at, has_link, share, among, all_differ};
ghost use Rattle.ledger.specs.Ledgers.{link_count, record_count, record_in_range, record_clear, record_fits};
ghost use Rattle.ledger.specs.Steps.{fields_of, ring_size, ring_at, repeats_in, zeros_in, Narrow, sum_on, link_holds, charged, tested_of, standing_of};

use crate::{Ledger, Record};
use quantity::refusal::Refusal;
use quantity::{PathNumber, Quantity, Rate};

// Half of the records.
const HALF: usize = 32;

// A path that stands: the place of its record, and the record.
#[derive(Clone, Copy)]
pub struct Standing {
    pub at: usize,
    pub found: Record,
}

// The path of a number that stands, or refusal 1, or what is answered for a number that does not stand: each call says its own.
pub(crate) fn find(
    ledger: Ledger,
    records: &[Record],
    number: u32,
    unknown: Refusal,
) -> Result<Standing, Refusal>
    ensures { result ≡ standing_of unknown ledger records.now number }
{
    let Some(number) = PathNumber::checked(number) else {
        return Err(Refusal::Unusable);
    };
    test(ledger, records, number.0)?.ok_or(unknown)
}

// The path of a number if it stands; or refusal 1, where what is lent and stored cannot be used. The lent records are read once, each field into a list of its own.
pub(crate) fn test(
    ledger: Ledger,
    records: &[Record],
    number: u32,
) -> Result<Option<Standing>, Refusal>
    ensures { result ≡ tested_of ledger records.now number }
{
    if records.len() != crate::RECORDS {
        return Err(Refusal::Unusable);
    }
    let count = ledger.count;
    let mut fit = true;
    let mut fields = Fields {
        numbers: [0; 64],
        rates: [0; 64],
        links: [0; 64],
        marks: [0; 64],
    };
    // The place is counted in 32 bits too: compared in the 64 of `j` it makes a release a twentieth longer.
    let mut place: u32 = 0;
    for (j, entry) in records.iter().enumerate() {
        fit &= fits(*entry, place, count);
        fields.numbers[j] = entry.number.0;
        fields.rates[j] = entry.rate.0;
        fields.links[j] = entry.links;
        fields.marks[j] = entry.mark;
        place += 1;
    }
    judge(ledger, fit, &fields, number)
}

// Each field of the records in a list of its own, and not a list of records: a pass over one field reads no other, and loads as many of it as a vector holds.
#[derive(Clone, Copy)]
struct Fields {
    numbers: [u32; 64],
    rates: [u32; 64],
    links: [u32; 64],
    marks: [u32; 64],
}

// What the lists of the records' fields show.
fn judge(
    ledger: Ledger,
    fit: bool,
    fields: &Fields,
    number: u32,
) -> Result<Option<Standing>, Refusal>
    ensures { (records : List Record) → length records ≡ record_count → fit ≡ every (record_fits ledger.count records) record_count → fields.now ≡ fields_of records → result ≡ tested_of ledger records number }
{
    let count = ledger.count;
    if crate::RECORDS < count {
        return Err(Refusal::Unusable);
    }
    if !fit {
        return Err(Refusal::Unusable);
    }
    if !all_differ(&fields.numbers, count) {
        return Err(Refusal::Unusable);
    }
    if !links_fit(ledger, &fields.rates, &fields.links) {
        return Err(Refusal::Unusable);
    }
    let Some(at) = place_of(&fields.numbers[..count], number) else {
        return Ok(None);
    };
    let found = Record {
        number: PathNumber(fields.numbers[at]),
        rate: Rate(fields.rates[at]),
        links: fields.links[at],
        mark: fields.marks[at],
    };
    Ok(Some(Standing { at, found }))
}

// Whether a standing record has its values in their ranges.
fn in_range(entry: Record) -> bool
    ensures { result ≡ record_in_range entry }
{
    entry.number.in_range()
        & entry.rate.in_range()
        & (entry.links <= crate::ALL_LINKS)
        & (entry.mark <= crate::CONFIRMED)
}

// Whether any other is 0.
fn clear(entry: Record) -> bool
    ensures { result ≡ record_clear entry }
{
    (entry.number.0 == 0) & (entry.rate.0 == 0) & (entry.links == 0) & (entry.mark == 0)
}

// Of a record at a place: both are had, so that a loop over the records has no branch. A count above 64 is that of all.
fn fits(entry: Record, place: u32, count: usize) -> bool
    ensures { (records : List Record) → entry ≡ record_at records place → place < record_count → result ≡ record_fits count records place }
{
    let standing = in_range(entry);
    let clear = clear(entry);
    let end = count.min(crate::RECORDS) as u32;
    if place < end { standing } else { clear }
}

fn place_of(numbers: &[u32], number: u32) -> Option<usize>
    ensures { result ≡ position (λ other. other == number) numbers.now }
{
    numbers.iter().position(|other| *other == number)
}

// Whether a number is among some. All are compared, so that the loop has no branch.
fn is_among(numbers: &[u16], number: u16) -> bool
    ensures { result ≡ among (λ j. slice_index numbers.now j) (length numbers.now) number }
{
    let mut met = false;
    for other in numbers {
        met |= *other == number;
    }
    met
}

// The numbers' 16 bits in a ring of 64, and its first 32 once more.
fn ring_of(numbers: &[u32; 64]) -> [u16; 96]
    ensures { result ≡ list_of (ring_at numbers.now) ring_size }
{
    let mut ring = [0; 96];
    // tried: a zip of both lists, the ring by `iter_mut`; its proof did not close.
    for (j, number) in numbers.iter().enumerate() {
        ring[j] = (*number % 65536) as u16;
    }
    ring.copy_within(0..HALF, crate::RECORDS);
    ring
}

// Whether a number that is not 0 is twice in a ring. Each is compared with the 32 behind it: of two, one is among those behind the other.
// By the place: a window of 33 would be taken apart again, into the number and those behind it.
fn repeats(ring: &[u16; 96]) -> bool
    ensures { result ≡ repeats_in ring.now record_count }
{
    let mut met = false;
    for j in 0..crate::RECORDS {
        let number = ring[j];
        let next = j + 1;
        let behind = is_among(&ring[next..next + HALF], number);
        met |= (number != 0) & behind;
    }
    met
}

// How many of 64 numbers are 0. Each is added as 1 or 0: `filter(..).count()` branches at each, and makes the test a tenth longer.
fn zeros(numbers: &[u32; 64]) -> u32
    ensures { result ≡ zeros_in (λ j. slice_index numbers.now j) record_count }
{
    let mut met: u32 = 0;
    for number in numbers {
        met += u32::from(*number == 0);
    }
    met
}

// Whether the first so many of 64 numbers differ, if they have 16 bits and all others are 0: no other number is there twice, and 0 once more than behind them at most.
fn all_differ(numbers: &[u32; 64], count: usize) -> bool
    requires { count ≤ record_count }
    ensures { Narrow (λ j. slice_index numbers.now j) count → result ≡ all_differ (λ j. slice_index numbers.now j) count }
{
    let ring = ring_of(numbers);
    if repeats(&ring) {
        return false;
    }
    zeros(numbers) as usize + count <= crate::RECORDS + 1
}

// Whether a link is named in 16 bits, bit i for link i. A link is an index here: the type `Link` is tested where one is given.
#[tactic(auto, unfolding(crate::specs::Records::has_link))]
pub(crate) fn has_link(links: u32, link: usize) -> bool
    requires { link < link_count }
    ensures { result ≡ has_link links link }
{
    (links >> link) % 2 == 1
}

// What a record reserves on a link: its rate where the link's bit is set.
pub(crate) fn share_on(entry: Record, link: usize) -> Rate
    requires { link < link_count }
    ensures { result ≡ record { 0 = share entry link } }
{
    if has_link(entry.links, link) {
        entry.rate
    } else {
        Rate(0)
    }
}

// Each link's total with a record's share. A sum of 32 bits would wrap; in a ledger that can be used none does.
pub(crate) fn charge(rates: [Rate; 16], entry: Record) -> [Rate; 16]
    ensures { result ≡ charged rates entry }
{
    let mut sums = rates;
    for (link, sum) in sums.iter_mut().enumerate() {
        let share = share_on(entry, link);
        *sum = Rate(sum.0.wrapping_add(share.0));
    }
    sums
}

// What all records reserve on a link, wrapping as the sum of one more does. A rate is read before its bit is tested, so that the loop has no branch.
fn reserved_on(rates: &[u32; 64], links: &[u32; 64], link: usize) -> u32
    requires { link < link_count }
    ensures { result ≡ sum_on rates.now links.now record_count link % 2 ^ 32 }
{
    let mut sum: u32 = 0;
    for (rate, named) in rates.iter().zip(links) {
        let rate = *rate;
        let share = if has_link(*named, link) { rate } else { 0 };
        sum = sum.wrapping_add(share);
    }
    sum
}

// Whether each link's capacity is in its range, the sum over the records at most the capacity, and the stored total the sum.
// By the link's number: its bit, capacity and total are found by it.
fn links_fit(ledger: Ledger, rates: &[u32; 64], links: &[u32; 64]) -> bool
    ensures { result ≡ every (link_holds ledger rates.now links.now) link_count }
{
    let mut fit = true;
    for link in 0..crate::LINKS {
        let capacity = ledger.capacities[link];
        let total = ledger.totals[link];
        let sum = reserved_on(rates, links, link);
        fit &= capacity.in_range() & (sum <= capacity.0) & (total.0 == sum);
    }
    fit
}
