// The operators of a slot, one behind the other: each is tested, decided and advanced in one step, and its words are written once all have passed (document 01, sections 3, 6 and 7).

ghost use Rattle.std.specs.Prelude.{◌≡◌, ◌≤◌, ◌<◌, length};
ghost use Rattle.quantity.specs.Limits.{most_operators};
ghost use Rattle.operator.specs.Ring.{advanced_of};
ghost use Rattle.words.specs.Stored.{word_noted};
ghost use Rattle.run.specs.Runs.{run_word_count, operator_at_word, operator_words, operator_of};
ghost use Rattle.run.specs.Steps.{first_progress, once_sent, once_above, stage_kept, with_part, totals_written};

use crate::{Stage, operator_of, operator_words};
use operator::ring::{Advanced, Halted, PathOperator, advance};
use quantity::{Slots, Units};

// fits is no refusal: it is tested last, behind what all operators say (section 7, 1).
// What the operators so far have told: whether all would store no more than the limit, the first whose choice is above, and what arrives at the next.
#[derive(Clone, Copy)]
pub(crate) struct Progress {
    pub fits: bool,
    pub above: Option<usize>,
    pub arriving: Units,
}

impl Progress {
    // Before the first operator.
    #[tactic(auto, unfolding(crate::specs::Steps::first_progress))]
    pub(crate) fn new(input: Units) -> Progress
        ensures { result ≡ first_progress input }
    {
        Progress {
            fits: true,
            above: None,
            arriving: input,
        }
    }

    // Behind an operator that sends.
    #[tactic(auto, unfolding(crate::specs::Steps::once_sent))]
    pub(crate) fn sent(self, output: Units, fits: bool) -> Progress
        ensures { result ≡ once_sent self output fits }
    {
        Progress {
            fits: self.fits & fits,
            arriving: output,
            ..self
        }
    }

    // Behind operator k, whose choice is above.
    #[tactic(auto, unfolding(crate::specs::Steps::once_above))]
    pub(crate) fn above(self, k: usize) -> Progress
        ensures { result ≡ once_above self k }
    {
        Progress {
            above: self.above.or(Some(k)),
            ..self
        }
    }
}

// Operator k with its words.
pub(crate) fn advance_stage(
    stage: Stage,
    slot: Slots,
    words: &[u32],
    k: usize,
    input: Units,
    choice: Units,
) -> Result<Advanced, Halted>
    requires { (length words.now ≡ run_word_count) × (k < most_operators) }
    ensures { result ≡ advanced_of (operator_of stage slot) (operator_words words.now k) input.0 choice.0 }
{
    advance(
        operator_of(stage, slot),
        operator_words(words, k),
        input,
        choice,
    )
}

// An operator within a path, as the run keeps it. No From: the slot is left out.
#[tactic(auto, unfolding(crate::specs::Steps::stage_kept))]
pub(crate) fn stage_of(state: PathOperator) -> Stage
    ensures { result ≡ stage_kept state }
{
    Stage {
        operator: state.operator,
        held: state.held,
        beside: state.beside,
        entered: state.entered,
        left: state.left,
    }
}

// The total of operator k in the word that advancing answered.
fn write_total(at: usize, total: u32, words: &mut [u32], k: usize)
    requires { (length words.old ≡ run_word_count) × (k < most_operators) }
    ensures { words.new ≡ with_part (operator_at_word k) (word_noted (operator_words words.old k) at total) words.old }
{
    let start = crate::METER_WORDS + crate::OPERATOR_WORDS * k;
    let end = start + crate::OPERATOR_WORDS;
    words::note(&mut words[start..end], at, total);
}

// The totals of the first operators, each in its word.
pub(crate) fn write_totals(
    places: &[usize; 16],
    stages: &[Stage; 16],
    count: usize,
    words: &mut [u32],
)
    requires { (length words.old ≡ run_word_count) × (count ≤ most_operators) }
    ensures { words.new ≡ totals_written places.now stages.now count words.old }
{
    // By the operator's number: its place, total and words are in three lists.
    for k in 0..count {
        write_total(places[k], stages[k].entered, words, k);
    }
}
