// The steps of a single operator's slot, of which `single` makes its calls: what is lent and stored is tested, then all is decided on numbers, then what stays is written (document 01, sections 3, 6 and 7).
// A delayer's words are by age here; within a path they are a ring, and `ring` has these steps. `stored_in` is a part, for a program that shows what a single operator holds.

ghost use Rattle.std.specs.Prelude.{◌≡◌, ℕ, ◌+◌, ◌-◌, ◌%◌, ◌<◌, ◌≤◌, min, true, length, ◌==◌};
ghost use Rattle.quantity.specs.Choice.{pick};
ghost use Rattle.quantity.specs.Sums.{total};
ghost use Rattle.quantity.specs.Limits.{largest_amount, last_slot};
ghost use Rattle.operator.specs.Held.{Held};
ghost use Rattle.operator.specs.Delayer.{of_age};
ghost use Rattle.operator.specs.Operators.{least_output, greatest_output, held_after, number_in_range};
ghost use Rattle.words.specs.Stored.{word_at};
ghost use Rattle.operator.specs.Single.{word_count, words_used};
ghost use Rattle.operator.specs.Parts.{most_on_the_way, holds_with, stored_of, undecidable, decided_of, kept_of, words_kept, refusal_of};

use crate::{Operator, SingleOperator};
use quantity::refusal::Refusal;
use quantity::{Slots, Units};

// The words of an operator.
pub(crate) const WORDS: usize = 64;

// What sixteen operators at the limit and an input can bring to an operator within a path.
pub(crate) const ON_THE_WAY: u64 = 18_253_610_991;

// What a decision answers: the output, what stays and a filter's h then.
#[derive(Clone, Copy)]
pub(crate) struct Sending {
    pub output: Units,
    pub kept: Units,
    pub beside: Units,
}

// Why a step sends nothing: it cannot be decided, the operator's number is out of its range, the choice is above greatest minus least, or what stays cannot be kept.
#[derive(Clone, Copy)]
pub(crate) enum Unsent {
    Undecidable,
    OutOfRange,
    ChoiceAbove,
    Unfit,
}

impl From<Unsent> for Refusal {
    ghost from_gives = { λ why refusal. refusal ≡ refusal_of why };

    fn from(why: Unsent) -> Refusal {
        match why {
            Unsent::Undecidable | Unsent::Unfit => Refusal::Unusable,
            Unsent::OutOfRange => Refusal::OutOfRange(0),
            Unsent::ChoiceAbove => Refusal::ChoiceAboveGreatest(0),
        }
    }
}

// Test: section 3's b, unless what is lent and stored cannot be used.
pub fn stored_in(state: SingleOperator, words: &[u32]) -> Option<Units>
    ensures { result ≡ stored_of state words.now }
{
    if words.len() != WORDS || Slots::LAST < state.slot.0 {
        return None;
    }
    let operator = state.operator;
    if !words::stored_fits(operator.uses_held(), state.held.0) {
        return None;
    }
    if !words::stored_fits(operator.uses_beside(), state.beside.0) {
        return None;
    }
    let units = words::scan(words, operator.words_used())?;
    if Units::LARGEST < units {
        return None;
    }
    // one of the two is 0
    Some(Units(state.held.0 + units))
}

// Decide, on numbers: the output, what stays and a filter's h then, whatever they are. `held` is what stored_in answered; no word is tested.
// State, words and amounts go one by one: the words are the caller's memory.
pub(crate) fn decide(
    state: SingleOperator,
    words: &[u32],
    held: Units,
    input: Units,
    choice: Units,
) -> Result<Sending, Unsent>
    ensures { result ≡ decided_of state words.now held.0 input.0 choice.0 }
{
    if undecidable(state, words, held.0, input.0, choice.0) {
        return Err(Unsent::Undecidable);
    }
    let operator = state.operator;
    if !operator.number_in_range() {
        return Err(Unsent::OutOfRange);
    }
    let there = held.0 + input.0;
    let low = least(state, words, held.0, input.0);
    if greatest(operator, low, there).saturating_sub(low) < choice.0 {
        return Err(Unsent::ChoiceAbove);
    }
    let output = low + choice.0;
    Ok(Sending {
        output: Units(output),
        kept: Units(there.saturating_sub(output)),
        beside: Units(beside_after(operator, state.beside.0, input.0)),
    })
}

// Keep: the next state; every unit in the words is a slot older, the input is new and the newest stay, `kept` of them in all.
pub(crate) fn keep(
    state: SingleOperator,
    words: &mut [u32],
    input: Units,
    kept: Units,
    beside: Units,
) -> Result<SingleOperator, Unsent>
    ensures { (result ≡ kept_of state words.old kept.0 beside.0) × (words.new ≡ words_kept state words.old input.0 kept.0 beside.0) }
{
    if words::unfit(words.len(), WORDS, state.slot.0, kept.0, beside.0) {
        return Err(Unsent::Unfit);
    }
    let operator = state.operator;
    if !operator.number_in_range() {
        return Err(Unsent::OutOfRange);
    }
    keep_newest(words, operator.words_used(), input.0, kept.0);
    Ok(SingleOperator {
        operator,
        slot: Slots(state.slot.0 + 1),
        held: if operator.uses_held() { kept } else { Units(0) },
        beside,
    })
}

// Whether the words have a wrong length, no slot number is left, or an amount is above its limit.
fn undecidable(state: SingleOperator, words: &[u32], held: u64, input: u64, choice: u64) -> bool
    ensures { result ≡ undecidable state words.now held input choice }
{
    words::unfit(words.len(), WORDS, state.slot.0, held, state.beside.0)
        | (ON_THE_WAY < input)
        | (Units::LARGEST < choice)
}

// Every unit is a slot older, the input is new, and the newest stay, `kept` of them in all: oldest leave first.
fn keep_newest(words: &mut [u32], count: usize, input: u64, kept: u64)
    requires { (count ≤ length words.old) × (kept ≤ largest_amount) }
    ensures kept_below { (x : Held) → x.past ≡ word_at words.old → (a : ℕ) → a < count → word_at words.new a ≡ min (of_age x input a) (kept - total (of_age x input) a) }
    ensures same_behind { (a : ℕ) → count ≤ a → word_at words.new a ≡ word_at words.old a }
{
    let mut arriving = input;
    let mut room = kept;
    for word in &mut words[..count] {
        let old = u64::from(*word);
        let stays = arriving.min(room);
        *word = stays as u32;
        room -= stays;
        arriving = old;
    }
}

// Section 3's least output; a word by itself, whatever it is, is not more than could be there.
pub(crate) fn least(state: SingleOperator, words: &[u32], held: u64, input: u64) -> u64
    requires operates { (number_in_range state.operator ≡ true) × (length words.now ≡ word_count) × (state.slot.0 ≤ last_slot) }
    requires amounts_within { (held ≤ largest_amount) × (state.beside.0 ≤ largest_amount) × (input ≤ most_on_the_way) }
    ensures value { result ≡ least_output state.operator state.slot.0 (holds_with state words.now held) input }
    ensures upper_bound { result ≤ most_on_the_way + largest_amount }
{
    let there = held + input;
    match state.operator {
        Operator::Limiter(rate) => there.min(u64::from(rate.0)),
        Operator::Compactor(interval) => compactor_sends(state.slot.0, interval.0, held),
        Operator::Expander(interval) => expander_least(state.slot.0, interval.0, there),
        Operator::Filter(rate) => there.saturating_sub(limited(state.beside.0, input, rate.0)),
        Operator::Delayer(delay) => {
            let oldest = delay.0 as usize - 1;
            u64::from(words[oldest])
        }
    }
}

// Section 3's greatest output: a limiter and a compactor have one output, any other operator may send all that is there.
pub(crate) fn greatest(operator: Operator, low: u64, there: u64) -> u64
    ensures { (t : ℕ) (x : Held) (input : ℕ) → low ≡ least_output operator t x input → there ≡ x.b + input → result ≡ greatest_output operator t x input }
{
    match operator {
        Operator::Limiter(_) | Operator::Compactor(_) => low,
        Operator::Expander(_) | Operator::Filter(_) | Operator::Delayer(_) => there,
    }
}

// What a compactor sends: what it held in a slot divisible by its interval, else nothing.
// Two names for at_multiple, since section 3 has the two in its own words; `0 < interval` is for the remainder, which takes the bare number.
pub(crate) fn compactor_sends(slot: u32, interval: u32, held: u64) -> u64
    requires { 0 < interval }
    ensures { (result ≡ pick (slot % interval == 0) held 0) × (result ≤ held) }
{
    at_multiple(slot, interval, held)
}

// The least output of an expander: all that is there in the last slot of a block, else nothing.
pub(crate) fn expander_least(slot: u32, interval: u32, there: u64) -> u64
    requires { (0 < interval) × (slot ≤ last_slot) }
    ensures { (result ≡ pick ((slot + 1) % interval == 0) there 0) × (result ≤ there) }
{
    at_multiple(slot + 1, interval, there)
}

// So many units in a slot divisible by the interval, else none.
fn at_multiple(slot: u32, interval: u32, units: u64) -> u64
    requires { 0 < interval }
    ensures { (result ≡ pick (slot % interval == 0) units 0) × (result ≤ units) }
{
    if slot % interval == 0 { units } else { 0 }
}

// A filter's h after a slot; no other operator has one.
fn beside_after(operator: Operator, beside: u64, input: u64) -> u64
    requires { (beside ≤ largest_amount) × (input ≤ most_on_the_way) }
    ensures { (x : Held) → x.h ≡ beside → (s : ℕ) → result ≡ (held_after operator x input s).h }
{
    match operator {
        Operator::Filter(rate) => limited(beside, input, rate.0),
        _ => 0,
    }
}

// What a limiter holds after a slot.
pub(crate) fn limited(held: u64, input: u64, rate: u32) -> u64
    requires { (held ≤ largest_amount) × (input ≤ most_on_the_way) }
    ensures { result ≡ held + input - min (held + input) rate }
{
    (held + input).saturating_sub(u64::from(rate))
}
