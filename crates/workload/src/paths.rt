// Paths held in a ledger, and confirmed there, releases from it and the spare rates of its links. Each turn begins with the same ledger.

ghost use Rattle.std.specs.Prelude.{◌<◌};

use crate::{Parts, mix, mix_pair, mix_refusal};
use book::{Returned, confirm_path, hold_path, open_book, release_path};
use ledger::holding::Holding;
use ledger::opening::no_ledger;
use ledger::spare::spare_rate;
use ledger::{Ledger, Record, no_record};
use quantity::refusal::Refusal;
use quantity::{LinkCapacity, Rate};

// A ledger with its records.
#[derive(Clone, Copy)]
struct Book {
    ledger: Ledger,
    records: [Record; 64],
}

// A ledger of sixteen links of one capacity, in which a sheet's path is held and confirmed under each of some numbers, from the last on.
fn filled(capacity: u32, numbers: &[u32], sheets: &[u8], width: usize) -> Book {
    let mut book = opened(capacity);
    for (number, sheet) in numbers.iter().rev().zip(Parts::new(sheets, width)) {
        book = settled(book, *number, sheet);
    }
    book
}

fn opened(capacity: u32) -> Book {
    let Returned { answer, records } = open_book([capacity; 16], [no_record(); 64]);
    let ledger = answer.unwrap_or(no_ledger());
    Book { ledger, records }
}

// The book once a path was held and, if that was accepted, confirmed.
fn settled(book: Book, number: u32, sheet: &[u8]) -> Book {
    let Returned { answer, records } = hold_path(book.ledger, book.records, number, sheet);
    let Ok(Holding { ledger, .. }) = answer else {
        return Book { records, ..book };
    };
    let Returned { records, .. } = confirm_path(ledger, records, number);
    Book { ledger, records }
}

// A ledger with paths; then in each turn a path is held in it, under the next of further numbers, and confirmed at once if that is asked for.
#[unsafe(no_mangle)]
pub extern "C" fn workload_holdings(
    capacity: u32,
    standing: &[u32],
    further: &[u32],
    sheets: &[u8],
    width: usize,
    confirmed: bool,
    turns: u64,
) -> u64 {
    if further.is_empty() {
        return 0;
    }
    let book = filled(capacity, standing, sheets, width);
    let mut sum = 0;
    let asked = further.iter().cycle().zip(Parts::new(sheets, width));
    for (_, (number, sheet)) in (0..turns).zip(asked) {
        let answer = hold_path(book.ledger, book.records, *number, sheet);
        sum = mix_settled(sum, book.ledger.count, answer, *number, confirmed);
    }
    sum
}

// A ledger with paths; then in each turn the release of one of them.
#[unsafe(no_mangle)]
pub extern "C" fn workload_releases(
    capacity: u32,
    standing: &[u32],
    released: &[u32],
    sheets: &[u8],
    width: usize,
    turns: u64,
) -> u64 {
    if released.is_empty() {
        return 0;
    }
    let book = filled(capacity, standing, sheets, width);
    let mut sum = 0;
    for (left, number) in (1..=turns).rev().zip(released.iter().cycle()) {
        sum = mix_released(
            sum,
            book.ledger.count,
            release_path(book.ledger, book.records, *number),
            (left % 64) as usize,
        );
    }
    sum
}

// A ledger with paths; then in each turn the spare rate of one link of some. A capacity is stored anew in each turn, so that no turn can go by the tests of the one before.
#[unsafe(no_mangle)]
pub extern "C" fn workload_spare_rates(
    capacity: u32,
    standing: &[u32],
    asked: &[u32],
    sheets: &[u8],
    width: usize,
    turns: u64,
) -> u64 {
    if asked.is_empty() {
        return 0;
    }
    let book = filled(capacity, standing, sheets, width);
    let mut ledger = book.ledger;
    let mut sum = 0;
    for (_, link) in (0..turns).zip(asked.iter().cycle()) {
        ledger.capacities[(*link % 16) as usize] = LinkCapacity(capacity);
        sum = mix_spare(sum, spare_rate(ledger, *link));
    }
    sum
}

fn mix_spare(sum: u64, answer: Result<Rate, Refusal>) -> u64 {
    match answer {
        Err(why) => mix_refusal(sum, why),
        Ok(rate) => mix(sum, u64::from(rate.0)),
    }
}

// A path that was held, where so many stood, and is confirmed if that is asked for and the holding was accepted.
fn mix_settled(
    sum: u64,
    stood: usize,
    held: Returned<Holding>,
    number: u32,
    confirmed: bool,
) -> u64 {
    match held.answer {
        Err(why) => mix_refusal(mix(sum, stood as u64), why),
        Ok(holding) => {
            let next = mix(sum, holding.ledger.count as u64);
            let mixed = mix_record(mix(next, u64::from(holding.delay.0)), held.records[63]);
            if confirmed {
                mix_confirmed(mixed, confirm_path(holding.ledger, held.records, number))
            } else {
                mixed
            }
        }
    }
}

fn mix_confirmed(sum: u64, confirmed: Returned<()>) -> u64 {
    match confirmed.answer {
        Err(why) => mix_refusal(sum, why),
        Ok(()) => mix_record(sum, confirmed.records[63]),
    }
}

// A release, where so many stood.
fn mix_released(sum: u64, stood: usize, released: Returned<Ledger>, k: usize) -> u64
    requires { k < 64 }
{
    let entry = released.records[k];
    match released.answer {
        Err(why) => mix_refusal(mix_record(mix(sum, stood as u64), entry), why),
        Ok(ledger) => mix_record(mix(sum, ledger.count as u64), entry),
    }
}

fn mix_record(sum: u64, entry: Record) -> u64 {
    let next = mix_pair(sum, entry.number.0, entry.rate.0);
    mix_pair(next, entry.links, entry.mark)
}
