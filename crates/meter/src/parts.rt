// Parts of a slot, for the crate that runs a path. They are no calls: who builds boxes calls take and room_left (document 01, sections 2, 6 and 7; document 02, item 6).
// What is lent and stored is tested and counted, then the rows' quotas decide, then the input is written.
// A meter's words are its caller's memory (document 01, section 6), so its state and they go as two arguments.

ghost use Rattle.std.specs.Prelude.{◌≡◌, ◌+◌, ◌-◌, ◌%◌, ◌<◌, ◌≤◌, true, false, length};
ghost use Rattle.quantity.specs.Choice.{pick};
ghost use Rattle.quantity.specs.Limits.{largest_amount};
ghost use Rattle.quantity.specs.Sums.{total, every};
ghost use Rattle.words.specs.Stored.{word_at, word_fits};
ghost use Rattle.words.specs.Gathering.{most_exact};
ghost use Rattle.flow.specs.Declarations.{declaration_in_range, rows_in_order};
ghost use Rattle.meter.specs.Meter.{meter_word_count, uses_block, ring_length, meter_unusable, block_before, word_before};
ghost use Rattle.meter.specs.Counting.{RowsTested, AgesGathered, RowsRise, RowsVisited};
ghost use Rattle.meter.specs.Parts.{inputs_below, awaited_of, counted_of, block_behind, input_noted, uncounted_refusal};

use crate::SourceMeter;
use flow::{Declaration, DeclaredRow, Kind};
use quantity::refusal::Refusal;
use quantity::{Slots, Units};
use words::Gathered;

// The words of a meter.
const WORDS: usize = 1024;

// What is known of the next input: what it has to be below, the block's total before it, and the word that it is noted in; where there is a block there is none.
#[derive(Clone, Copy)]
pub struct Awaited {
    pub below: Units,
    pub block: Units,
    pub at: Option<usize>,
}

// Why an input cannot be counted.
#[derive(Clone, Copy)]
pub enum Uncounted {
    Unusable,
    OutOfRange,
    OutOfOrder,
}

// The call's refusal.
impl From<Uncounted> for Refusal {
    ghost from_gives = { λ why refusal. refusal ≡ uncounted_refusal why };

    fn from(why: Uncounted) -> Refusal {
        match why {
            Uncounted::Unusable => Refusal::Unusable,
            Uncounted::OutOfRange => Refusal::OutOfRange(0),
            Uncounted::OutOfOrder => Refusal::RowsOutOfOrder(0),
        }
    }
}

// Test: what the next input has to be below, so that it keeps every row, and where it goes. Under several rows each word is visited once, unless one is so large that a sum could wrap; the last row reaches all but the word that the input replaces.
pub fn counted_before(state: SourceMeter, words: &[u32]) -> Result<Awaited, Uncounted>
    ensures { result ≡ counted_of state words.now }
{
    let declaration = state.declaration;
    if uses_block(declaration.kind) {
        return counted_in_block(state, words);
    }
    if rows_tested(state, words) {
        let ring = ring_length(declaration);
        let at = state.slot.0 as usize % ring;
        let rows = declaration.rows;
        let below = rows_below(
            words,
            ring,
            at,
            &rows[..declaration.count],
            Units::LARGEST + 1,
        );
        if below.join | words[at] <= words::MOST_EXACT {
            return Ok(Awaited {
                below: Units(below.least),
                block: Units(0),
                at: Some(at),
            });
        }
    }
    counted_by_scan(state, words)
}

// The same by the block's total: no word is used.
fn counted_in_block(state: SourceMeter, words: &[u32]) -> Result<Awaited, Uncounted>
    requires { uses_block state.declaration.kind ≡ true }
    ensures { result ≡ counted_of state words.now }
{
    let declaration = state.declaration;
    // The first three tests stand in each of the three ways: as one function they would need a definition of what they leave.
    if words.len() != WORDS
        || Slots::LAST < state.slot.0
        || !declaration.unused_clear()
        || Units::LARGEST < state.block.0
        || !words::all_clear(words)
    {
        return Err(Uncounted::Unusable);
    }
    if !declaration.in_range() {
        return Err(Uncounted::OutOfRange);
    }
    let block = block_before(state);
    Ok(Awaited {
        below: Units(left_below(declaration.quota.0, block)),
        block: Units(block),
        at: None,
    })
}

// Write: the block's total behind an input, 0 where that is noted in a word.
pub fn block_behind(awaited: Awaited, input: Units) -> Units
    ensures { result ≡ block_behind awaited input }
{
    match awaited.at {
        Some(_) => Units(0),
        None => awaited.block.plus(input),
    }
}

// Write: the input, as a word, where counting answered a place for it.
pub fn note_input(words: &mut [u32], at: Option<usize>, input: u32)
    ensures { words.new ≡ input_noted at words.old input }
{
    if let Some(at) = at {
        words::note(words, at, input);
    }
}

// Whether there are several rows, and no test stands but those of the words in the ring.
fn rows_tested(state: SourceMeter, words: &[u32]) -> bool
    ensures { result ≡ true → RowsTested state words.now }
{
    let declaration = state.declaration;
    if !declaration.kind.has_rows()
        || !declaration.unused_clear()
        || !declaration.in_range()
        || !declaration.in_order()
        || words.len() != WORDS
        || Slots::LAST < state.slot.0
        || state.block.0 != 0
    {
        return false;
    }
    words::all_clear(&words[ring_length(declaration)..])
}

// What one pass over the words of several rows' slots finds: the words joined, and the least of a first number and what each row leaves.
#[derive(Clone, Copy)]
struct RowsBelow {
    join: u32,
    least: u64,
}

// Each row goes on the words of the row before: it joins and adds those up to its own reach, modulo 2^32.
fn rows_below(words: &[u32], ring: usize, at: usize, rows: &[DeclaredRow], first: u64) -> RowsBelow
    requires { RowsRise words.now ring at rows.now }
    ensures { RowsVisited words.now ring at rows.now first result.join result.least }
{
    let mut gathered = Gathered { join: 0, low: 0 };
    let mut reach = 0;
    let mut least = first;
    for row in rows {
        let end = row.interval.0 as usize - 1;
        gathered = gathered.with(ring_gather(words, ring, at, reach, end));
        reach = end;
        least = least.min(left_below(row.quota.0, u64::from(gathered.low)));
    }
    RowsBelow {
        join: gathered.join,
        least,
    }
}

// The words of the slots before the one at `at`, from age `from` to below age `to`, joined and added: one part of the words, or two.
fn ring_gather(words: &[u32], ring: usize, at: usize, from: usize, to: usize) -> Gathered
    requires { (length words.now ≡ meter_word_count) × (ring ≤ meter_word_count) × (at < ring) × (from ≤ to) × (to ≤ ring) }
    ensures { AgesGathered words.now ring at from to result }
{
    let start = at + ring - to;
    if at <= from {
        words::gather(&words[start..at + ring - from])
    } else if to <= at {
        words::gather(&words[at - to..at - from])
    } else {
        words::gather(&words[..at - from]).with(words::gather(&words[start..ring]))
    }
}

// The same by a scan of all words, and then row by row. That there is no block was tested in `counted_before`.
fn counted_by_scan(state: SourceMeter, words: &[u32]) -> Result<Awaited, Uncounted>
    requires { uses_block state.declaration.kind ≡ false }
    ensures { result ≡ counted_of state words.now }
{
    let Some(units) = stored_in(state, words) else {
        return Err(Uncounted::Unusable);
    };
    let declaration = state.declaration;
    if !declaration.in_range() {
        return Err(Uncounted::OutOfRange);
    }
    if !declaration.in_order() {
        return Err(Uncounted::OutOfOrder);
    }
    Ok(awaited_in_ring(state, words, units))
}

// The sum of the words, unless what is lent and stored cannot be used.
fn stored_in(state: SourceMeter, words: &[u32]) -> Option<u64>
    requires { uses_block state.declaration.kind ≡ false }
    ensures { result ≡ pick (meter_unusable state words.now) None (Some (total (word_at words.now) meter_word_count)) }
{
    let declaration = state.declaration;
    if words.len() != WORDS
        || Slots::LAST < state.slot.0
        || !declaration.unused_clear()
        || state.block.0 != 0
    {
        return None;
    }
    words::scan(words, ring_length(declaration))
}

// The last row counts all words but the one that the input replaces; a uniform declaration has no row before it, and its count is 0. Where the last row leaves something, no sum is above its quota, so 32 bits are enough.
fn awaited_in_ring(state: SourceMeter, words: &[u32], units: u64) -> Awaited
    requires { (uses_block state.declaration.kind ≡ false) × (meter_unusable state words.now ≡ false) × (declaration_in_range state.declaration ≡ true) × (rows_in_order state.declaration ≡ true) × (units ≡ total (word_at words.now) meter_word_count) }
    ensures { result ≡ awaited_of state words.now }
{
    let declaration = state.declaration;
    let last = declaration.last_row();
    let ring = last.interval.0 as usize;
    let at = (state.slot.0 % last.interval.0) as usize;
    let mut least = left_below(last.quota.0, units - u64::from(words[at]));
    if least != 0 && 1 < declaration.count {
        let rows = declaration.rows;
        least = rows_below(words, ring, at, &rows[..declaration.count - 1], least).least;
    }
    Awaited {
        below: Units(least),
        block: Units(0),
        at: Some(at),
    }
}

// What an input has to be below to be within a quota, with the units that count with it.
fn left_below(quota: u32, counted: u64) -> u64
    ensures { result ≡ quota + 1 - counted }
{
    (u64::from(quota) + 1).saturating_sub(counted)
}

// The units of the block so far.
fn block_before(state: SourceMeter) -> u64
    requires { 1 ≤ state.declaration.interval.0 }
    ensures { result ≡ block_before state }
{
    if state.slot.0 % state.declaration.interval.0 == 0 {
        0
    } else {
        state.block.0
    }
}

fn uses_block(kind: Kind) -> bool
    ensures { result ≡ uses_block kind }
{
    match kind {
        Kind::Smooth => true,
        Kind::Uniform | Kind::Rows => false,
    }
}

// The words of the ring.
fn ring_length(declaration: Declaration) -> usize
    ensures { result ≡ ring_length declaration }
{
    match declaration.kind {
        Kind::Smooth => 0,
        Kind::Uniform => declaration.interval.0 as usize,
        Kind::Rows if declaration.count == 0 || 4 < declaration.count => 0,
        Kind::Rows => declaration.last_row().interval.0 as usize,
    }
}
