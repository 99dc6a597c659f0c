// What is lent and stored, each value and every word tested once (document 01, section 7, 1).

ghost use Rattle.std.specs.Prelude.{◌≡◌, not, ◌<◌, eqb, length};
ghost use Rattle.quantity.specs.Choice.{both};
ghost use Rattle.quantity.specs.Limits.{most_operators};
ghost use Rattle.quantity.specs.Sums.{every};
ghost use Rattle.operator.specs.Operators.{number_in_range};
ghost use Rattle.operator.specs.Ring.{path_unusable};
ghost use Rattle.run.specs.Runs.{run_word_count, operator_words, operator_of, run_unusable};
ghost use Rattle.run.specs.Steps.{stage_empty, stage_unused, unused_behind, begun_in};

use crate::{Run, Stage, meter_of, operator_of, operator_words};
use meter::parts::{Awaited, counted_before};
use operator::ring::usable;
use quantity::Slots;
use sheet::kind_and_number;
use words::row_clear;

// What is known of the next input, where all fits but for the path's operators: the words' length, the number of operators, the declaration, the meter, and what lies behind the operators.
pub(crate) fn begin_run(run: &Run, words: &[u32]) -> Option<Awaited>
    ensures { result ≡ begun_in run.now words.now }
{
    if words.len() != crate::WORDS || run.count == 0 || crate::OPERATORS < run.count {
        return None;
    }
    let Ok(awaited) = counted_before(meter_of(run), &words[0..crate::METER_WORDS]) else {
        return None;
    };
    if behind_unused(run, words) {
        Some(awaited)
    } else {
        None
    }
}

// Whether the stages behind the path's operators and their words are unused.
fn behind_unused(run: &Run, words: &[u32]) -> bool
    requires { length words.now ≡ run_word_count }
    ensures { result ≡ every (unused_behind run.now.count run.now.stages words.now) most_operators }
{
    // By number, here and below: a stage's words are found by it, and the laws speak of stage k.
    for k in run.count..crate::OPERATORS {
        if !unused(run.stages[k], words, k) {
            return false;
        }
    }
    true
}

// Whether all that is lent and stored can be used.
pub(crate) fn run_usable(run: &Run, words: &[u32]) -> bool
    ensures { result ≡ not (run_unusable run.now words.now) }
{
    if begin_run(run, words).is_none() {
        return false;
    }
    for k in 0..run.count {
        if !stage_fits(run.stages[k], run.slot, words, k) {
            return false;
        }
    }
    true
}

// Whether stage k, of an operator of the path, and its words can be used.
fn stage_fits(stage: Stage, slot: Slots, words: &[u32], k: usize) -> bool
    requires { (length words.now ≡ run_word_count) × (k < most_operators) }
    ensures { result ≡ both (number_in_range stage.operator) (not (path_unusable (operator_of stage slot) (operator_words words.now k))) }
{
    stage.operator.number_in_range() && usable(operator_of(stage, slot), operator_words(words, k))
}

// Whether stage k, behind the path's operators, is empty and its words are 0. Both are found out, and then there is one test.
fn unused(stage: Stage, words: &[u32], k: usize) -> bool
    requires { (length words.now ≡ run_word_count) × (k < most_operators) }
    ensures { result ≡ stage_unused stage words.now k }
{
    (join(stage) == 0) & row_clear(operator_words(words, k))
}

// All that a stage stores, joined: 0 just where the stage is empty, as those behind the path's operators are.
// Two numbers of 32 bits that lie side by side are joined as one of 64.
fn join(stage: Stage) -> u64
    ensures { eqb result 0 ≡ stage_empty stage }
{
    let (kind, number) = kind_and_number(stage.operator);
    let named = u64::from(kind) | (u64::from(number) << 32);
    let units = stage.held.0 | stage.beside.0;
    let totals = u64::from(stage.entered) | (u64::from(stage.left) << 32);
    named | units | totals
}
