// Holding a path: its reservation is made, and it waits to be confirmed (document 01, sections 6 and 7; document 02, item 8).

ghost use Rattle.std.specs.Prelude.{◌≡◌, ℕ, ◌<◌, ◌≤◌, true, false, List, length, slice_set, slice_index_or, Ok, Err};
ghost use Rattle.quantity.specs.Rounding.{round_up};
ghost use Rattle.quantity.specs.Refusals.{first_of};
ghost use Rattle.flow.specs.Declarations.{last_row, declaration_in_range};
ghost use Rattle.sheet.specs.Paths.{Path, no_linked_operator};
ghost use Rattle.sheet.specs.Forms.{value_of_path, in_full};
ghost use Rattle.sheet.specs.Sheets.{path_in_range};
ghost use Rattle.figures.specs.Answers.{path_delay};
ghost use Rattle.ledger.specs.declared.Record.{Record};
ghost use Rattle.ledger.specs.Records.{has_link, stands};
ghost use Rattle.ledger.specs.Ledgers.{link_count, record_count, ledger_unusable};
ghost use Rattle.ledger.specs.Holding.{links_of, standing_cases, holding_of, records_held};
ghost use Rattle.ledger.specs.Steps.{short_of, Decidable, accepted_appending, appending_of};

use crate::test::{charge, has_link, test};
use crate::{Ledger, Record};
use figures::figures;
use flow::Declaration;
use quantity::refusal::Refusal;
use quantity::{LinkCapacity, PathNumber, Quantity, Rate, Slots};
use sheet::PathValue;

// The ledger with the path, what it reserves, and its delay.
#[derive(Clone, Copy)]
pub struct Holding {
    pub ledger: Ledger,
    pub rate: Rate,
    pub delay: Slots,
}

// What is decided: the holding, and the record to append.
#[derive(Clone, Copy)]
struct Appending {
    holding: Holding,
    entry: Record,
}

// Holds a sheet's path under a number, or answers the first refusal of 1 to 12. Refused, the records are as they were.
// The ledger goes by value and its records are lent (section 6), so they are two arguments.
pub fn hold(
    ledger: Ledger,
    records: &mut [Record],
    number: u32,
    sheet: &[u8],
) -> Result<Holding, Refusal>
    ensures { (result ≡ holding_of ledger records.old number sheet.now) × (records.new ≡ records_held ledger records.old number sheet.now) }
{
    let appending = decide(ledger, records, number, sheet)?;
    append(records, ledger.count, appending.entry);
    Ok(appending.holding)
}

// One more record, behind those that stand.
fn append(records: &mut [Record], at: usize, entry: Record)
    requires { (at < length records.old) × (at < record_count) }
    ensures { records.new ≡ slice_set records.old at entry }
{
    records[at] = entry;
}

fn decide(
    ledger: Ledger,
    records: &[Record],
    number: u32,
    sheet: &[u8],
) -> Result<Appending, Refusal>
    ensures { result ≡ appending_of ledger records.now number sheet.now }
{
    let Some(number) = PathNumber::checked(number) else {
        return Err(Refusal::Unusable);
    };
    let standing = test(ledger, records, number.0)?;
    let planned = figures(sheet)?;
    decide_standing(
        ledger,
        standing.is_some(),
        number,
        planned.path,
        planned.delay,
    )
}

// 10 to 12, of a path with figures and a ledger that can be used.
fn decide_standing(
    ledger: Ledger,
    known: bool,
    number: PathNumber,
    path: PathValue,
    delay: Slots,
) -> Result<Appending, Refusal>
    requires { Decidable ledger path }
    ensures { (records : List Record) (given : Path) → ledger_unusable ledger records ≡ false → known ≡ stands records ledger.count number.0 → path_in_range given ≡ true → path ≡ value_of_path path.form given → delay ≡ record { 0 = path_delay given } → result ≡ first_of (standing_cases ledger records number.0 given) Err (Ok (accepted_appending ledger number.0 given)) }
{
    if known {
        return Err(Refusal::PathNumberWrong);
    }
    if ledger.count == crate::RECORDS {
        return Err(Refusal::LedgerFull);
    }
    let rate = reserved_by(path.declaration);
    let links = links_named(path);
    let capacities = ledger.capacities;
    let totals = ledger.totals;
    if link_short(capacities, totals, links, rate) {
        return Err(Refusal::LinkShort);
    }
    let entry = Record {
        number,
        rate,
        links,
        mark: crate::HELD,
    };
    let charged = charge(totals, entry);
    let holding = Holding {
        ledger: Ledger {
            capacities,
            totals: charged,
            count: ledger.count + 1,
        },
        rate,
        delay,
    };
    Ok(Appending { holding, entry })
}

// What a path reserves: ⌈Q/m⌉ of its declaration's last row.
fn reserved_by(declaration: Declaration) -> Rate
    requires { declaration_in_range declaration ≡ true }
    ensures { result.0 ≡ round_up (last_row declaration).quota (last_row declaration).interval }
{
    let row = declaration.last_row();
    Rate(row.quota.0.div_ceil(row.interval.0))
}

// The links that a path's operators are on, as 16 bits, bit i for link i.
fn links_named(path: PathValue) -> u32
    requires { (path.count ≤ 16) × ((k : ℕ) → k < 16 → (slice_index_or path.operators k no_linked_operator).link.0 < link_count) }
    ensures { result ≡ links_of (in_full path) }
{
    let operators = path.operators;
    let mut links: u32 = 0;
    for linked in &operators[..path.count] {
        links |= 1 << linked.link.0;
    }
    links
}

// Whether a named link's capacity is below its total with the rate. All links are tested, so that the loop has no branch.
// By the link's number: its bit, capacity and total are found by it.
fn link_short(capacities: [LinkCapacity; 16], totals: [Rate; 16], links: u32, rate: Rate) -> bool
    ensures { result ≡ short_of capacities totals (has_link links) rate }
{
    let mut short = false;
    for link in 0..crate::LINKS {
        let capacity = capacities[link];
        let raised = totals[link].plus(rate);
        short |= has_link(links, link) & (capacity.0 < raised.0);
    }
    short
}
