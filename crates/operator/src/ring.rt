// Parts of a slot of an operator within a path, for the crate that runs a path; they are no calls (document 02, item 10).
// A delayer's words are a ring: word t mod d is the total of the units that entered by the end of slot t, for the last d slots. A slot reads one of them and writes one.

ghost use Rattle.std.specs.Prelude.{◌≡◌, ℕ, ◌+◌, ◌<◌, ◌≤◌, true, false, not, List, length, MatchResult};
ghost use Rattle.quantity.specs.Choice.{pick};
ghost use Rattle.quantity.specs.Limits.{largest_amount, last_slot};
ghost use Rattle.operator.specs.Operators.{number_in_range};
ghost use Rattle.operator.specs.Single.{word_count, words_used, uses_held, uses_beside};
ghost use Rattle.operator.specs.Parts.{most_on_the_way};
ghost use Rattle.operator.specs.Ring.{total_more, total_less, ring_held, path_unusable, path_unready, storable, advanced_of};
ghost use Rattle.operator.specs.Steps.{SendsWithin};

use crate::Operator;
use crate::parts::{ON_THE_WAY, WORDS, compactor_sends, expander_least, limited};
use quantity::{Delay, Quantity, Slots, Units};

// Where a total wraps.
const WRAP: u64 = 4_294_967_296;

// The state of an operator within a path: as a single one's, with a delayer's totals of what entered and of what left, 32 bits and wrapping.
// What an operator doesn't use is 0.
#[derive(Clone, Copy)]
pub struct PathOperator {
    pub operator: Operator,
    pub slot: Slots,
    pub held: Units,
    pub beside: Units,
    pub entered: u32,
    pub left: u32,
}

// What advancing answers: the output, whether what stays is within the limit (no refusal yet: it is tested last, behind what all operators say), the operator once it has sent, its slot not counted yet, and the word that its total is noted in.
// 64 stands for no word: by an Option a slot of sixteen operators takes 7 in a hundred more instructions.
#[derive(Clone, Copy)]
pub struct Advanced {
    pub output: Units,
    pub fits: bool,
    pub next: PathOperator,
    pub at: usize,
}

// Why an operator does not advance.
#[derive(Clone, Copy)]
pub enum Halted {
    Unusable,
    ChoiceAbove,
}

// Test: whether what is lent and stored can be used.
pub fn usable(state: PathOperator, words: &[u32]) -> bool
    ensures { result ≡ not (path_unusable state words.now) }
{
    let Ok(words) = <&[u32; WORDS]>::try_from(words) else {
        return false;
    };
    if Slots::LAST < state.slot.0 {
        return false;
    }
    let operator = state.operator;
    if operator.uses_held() {
        apart_fits(state, most_beside(operator), words)
    } else {
        delayer_fits(state, operator.words_used(), words)
    }
}

// Advance: what is lent and stored is tested, the output decided and sent, in one pass that asks once of which kind the operator is. Of a delayer's words one is read.
pub fn advance(
    state: PathOperator,
    words: &[u32],
    input: Units,
    choice: Units,
) -> Result<Advanced, Halted>
    ensures { result ≡ advanced_of state words.now input.0 choice.0 }
{
    let Ok(words) = <&[u32; WORDS]>::try_from(words) else {
        return Err(Halted::Unusable);
    };
    if Slots::LAST < state.slot.0 || ON_THE_WAY < input.0 {
        return Err(Halted::Unusable);
    }
    advance_kind(state, words, input.0, choice.0)
}

// The operator's number, what it stores and its words are tested by its kind, and then it sends.
// State, words and amounts go one by one: a struct of them would be made at one place and opened in four, of which each uses another part.
fn advance_kind(
    state: PathOperator,
    words: &[u32; WORDS],
    input: u64,
    choice: u64,
) -> Result<Advanced, Halted>
    requires { (state.slot.0 ≤ last_slot) × (input ≤ most_on_the_way) }
    ensures { result ≡ advanced_of state words.now input choice }
{
    match state.operator {
        Operator::Limiter(rate) => {
            let there = there_apart(state, rate.in_range(), 0, words, input)?;
            let sent = there.min(u64::from(rate.0));
            sends(state, sent, sent, there, 0, choice)
        }
        Operator::Compactor(interval) => {
            let there = there_apart(state, interval.in_range(), 0, words, input)?;
            let sent = compactor_sends(state.slot.0, interval.0, state.held.0);
            sends(state, sent, sent, there, 0, choice)
        }
        Operator::Expander(interval) => {
            let there = there_apart(state, interval.in_range(), 0, words, input)?;
            let low = expander_least(state.slot.0, interval.0, there);
            sends(state, low, there, there, 0, choice)
        }
        Operator::Filter(rate) => {
            let there = there_apart(state, rate.in_range(), Units::LARGEST, words, input)?;
            let beside = limited(state.beside.0, input, rate.0);
            let low = there.saturating_sub(beside);
            sends(state, low, there, there, beside, choice)
        }
        Operator::Delayer(delay) => advance_delayer(state, delay, words, input, choice),
    }
}

// What is there for an operator that is no delayer to send, where what is lent and stored can be used and its number is in its range.
// It stands in each arm: as a call it takes the state through memory, and an advance has a tenth more instructions.
#[inline(always)]
fn there_apart(
    state: PathOperator,
    inside: bool,
    most: u64,
    words: &[u32; WORDS],
    input: u64,
) -> Result<u64, Halted>
    requires { (state.slot.0 ≤ last_slot) × (input ≤ most_on_the_way) × (uses_held state.operator ≡ true) × (inside ≡ number_in_range state.operator) × (most ≡ pick (uses_beside state.operator) largest_amount 0) }
    ensures { MatchResult result (λ there. (path_unready state words.now input ≡ false) × (there ≡ state.held.0 + input)) (λ why. (path_unready state words.now input ≡ true) × (why ≡ Halted.Unusable)) }
{
    if !inside || !apart_fits(state, most, words) {
        return Err(Halted::Unusable);
    }
    Ok(state.held.0 + input)
}

fn advance_delayer(
    state: PathOperator,
    delay: Delay,
    words: &[u32; WORDS],
    input: u64,
    choice: u64,
) -> Result<Advanced, Halted>
    requires { (state.slot.0 ≤ last_slot) × (input ≤ most_on_the_way) × (state.operator ≡ Operator.Delayer delay) }
    ensures { result ≡ advanced_of state words.now input choice }
{
    if !delay.in_range() {
        return Err(Halted::Unusable);
    }
    let used = delay.0 as usize;
    if !delayer_fits(state, used, words) {
        return Err(Halted::Unusable);
    }
    let held = u64::from(total_less(state.entered, state.left));
    let there = held + input;
    let at = state.slot.0 as usize % used;
    // what entered after slot t − d, as the one word of the ring that slot t − d left tells
    let recent = u64::from(total_less(state.entered, words[at]));
    let low = held.saturating_sub(recent);
    if there - low < choice {
        return Err(Halted::ChoiceAbove);
    }
    let output = low + choice;
    Ok(Advanced {
        output: Units(output),
        fits: within(there - output, 0),
        next: PathOperator {
            held: Units(0),
            beside: Units(0),
            entered: total_more(state.entered, input),
            left: total_more(state.left, output),
            ..state
        },
        at,
    })
}

// An operator that is no delayer sends the least and the choice, and keeps the rest. Its totals are 0.
fn sends(
    state: PathOperator,
    low: u64,
    high: u64,
    there: u64,
    beside: u64,
    choice: u64,
) -> Result<Advanced, Halted>
    requires { (low ≤ high) × (high ≤ there) }
    ensures { (words : List ℕ) (input : ℕ) → SendsWithin state words input low high there beside → result ≡ advanced_of state words input choice }
{
    if high - low < choice {
        return Err(Halted::ChoiceAbove);
    }
    let output = low + choice;
    let kept = there - output;
    Ok(Advanced {
        output: Units(output),
        fits: within(kept, beside),
        next: PathOperator {
            held: Units(kept),
            beside: Units(beside),
            entered: 0,
            left: 0,
            ..state
        },
        at: WORDS,
    })
}

// Whether what an operator would store is within the limit.
#[tactic(auto, unfolding(crate::specs::Ring::storable))]
fn within(kept: u64, beside: u64) -> bool
    ensures { result ≡ storable kept beside }
{
    kept <= Units::LARGEST && beside <= Units::LARGEST
}

// What an operator of a path holds, for people who watch it: a delayer what entered less what left.
#[tactic(auto, unfolding(crate::specs::Ring::ring_held))]
pub fn holds(state: PathOperator) -> Units
    ensures { result.0 ≡ pick (uses_held state.operator) state.held.0 (ring_held state) }
{
    if state.operator.uses_held() {
        state.held
    } else {
        Units(u64::from(total_less(state.entered, state.left)))
    }
}

// Whether an operator that is no delayer holds no more than the limit, its h is at most so much, and its totals and words are 0.
// How often an amount goes beyond its most is 0 just where it is within: so all amounts are joined, and tested once.
fn apart_fits(state: PathOperator, most: u64, words: &[u32; WORDS]) -> bool
    requires { (state.slot.0 ≤ last_slot) × (uses_held state.operator ≡ true) × (most ≡ pick (uses_beside state.operator) largest_amount 0) }
    ensures { result ≡ not (path_unusable state words.now) }
{
    let beyond = state.held.0 / (Units::LARGEST + 1) | state.beside.0 / (most + 1);
    let totals = u64::from(state.entered | state.left);
    if beyond | totals != 0 {
        return false;
    }
    words::row_clear(&words[..])
}

// The most that stands beside an operator: a filter's h is an amount, any other operator has 0 there.
fn most_beside(operator: Operator) -> u64
    ensures { result ≡ pick (uses_beside operator) largest_amount 0 }
{
    if operator.uses_beside() {
        Units::LARGEST
    } else {
        0
    }
}

// Whether a delayer's totals leave no more than the limit, and its fields and the words behind its ring are 0.
fn delayer_fits(state: PathOperator, used: usize, words: &[u32; WORDS]) -> bool
    requires { (state.slot.0 ≤ last_slot) × (uses_held state.operator ≡ false) × (used ≡ words_used state.operator) }
    ensures { result ≡ not (path_unusable state words.now) }
{
    if state.held.0 | state.beside.0 != 0 {
        return false;
    }
    if Units::LARGEST < u64::from(total_less(state.entered, state.left)) {
        return false;
    }
    if WORDS <= used {
        return true;
    }
    words::row_clear(&words[used..])
}

// A total and so many units more, wrapping: document 01 names the form, as that of the difference.
fn total_more(total: u32, units: u64) -> u32
    ensures { result ≡ total_more total units }
{
    total.wrapping_add((units % WRAP) as u32)
}

// The wrapping difference of two totals.
#[tactic(auto, unfolding(crate::specs::Ring::total_less))]
fn total_less(total: u32, earlier: u32) -> u32
    ensures { result ≡ total_less total earlier }
{
    total.wrapping_sub(earlier)
}
