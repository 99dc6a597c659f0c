// A slot of a run: tested and decided operator by operator, then written (document 01, sections 3, 6 and 7).

ghost use Rattle.std.specs.Prelude.{◌≡◌, not, fold, bit_or, ⊤, MatchOption, OnOk};
ghost use Rattle.quantity.specs.Choice.{both};
ghost use Rattle.run.specs.Calls.{choices_miscounted, amount_too_large, call_of};
ghost use Rattle.run.specs.Slots.{run_next, slotted_of, output_of, words_slotted};
ghost use Rattle.run.specs.Steps.{begun_of, Begun, judged_of};

use crate::Run;
use crate::stages::{Progress, advance_stage, stage_of, write_totals};
use crate::test::begin_run;
use meter::parts::{Awaited, block_behind, note_input};
use operator::ring::Halted;
use quantity::refusal::Refusal;
use quantity::{Slots, Units};

// What a slot answers: the last operator's output, and the next run.
#[derive(Clone, Copy)]
pub struct Slotted {
    pub output: Units,
    pub run: Run,
}

// One slot: the input, and a choice for each operator. A refusal leaves the words.
// What is answered is made first, so that the run is copied into its place and no more.
pub fn slot(run: Run, words: &mut [u32], input: Units, choices: &[u64]) -> Result<Slotted, Refusal>
    ensures { (result ≡ slotted_of run words.old (call_of input choices.now)) × (words.new ≡ words_slotted run words.old (call_of input choices.now)) }
{
    let mut slotted = Slotted {
        output: Units(0),
        run,
    };
    slotted.output = take(&mut slotted.run, words, input, choices)?;
    Ok(slotted)
}

// The slot, taken in the run itself, so that its stages are not copied: it is the next run then. Everything is decided before a word is written.
fn take(run: &mut Run, words: &mut [u32], input: Units, choices: &[u64]) -> Result<Units, Refusal>
    ensures answered { result ≡ output_of (slotted_of run.old words.old (call_of input choices.now)) }
    ensures written { words.new ≡ words_slotted run.old words.old (call_of input choices.now) }
    ensures next { OnOk result (run.new ≡ run_next run.old words.old (call_of input choices.now)) }
{
    let Some(awaited) = begin(run, words, input, choices) else {
        return Err(Refusal::Unusable);
    };
    let slot = run.slot;
    let count = run.count;
    // 64 where none is noted: note writes nothing there; by an Option a slot of sixteen operators takes 7 in a hundred more instructions.
    let mut places = [crate::OPERATOR_WORDS; 16];
    let mut progress = Progress::new(input);
    // By the operator's number: its choice, stage, words and place are in four lists, and a refusal names it.
    for k in 0..count {
        let choice = Units(choices[k]);
        match advance_stage(run.stages[k], slot, words, k, progress.arriving, choice) {
            Ok(advanced) => {
                run.stages[k] = stage_of(advanced.next);
                places[k] = advanced.at;
                progress = progress.sent(advanced.output, advanced.fits);
            }
            Err(Halted::ChoiceAbove) => progress = progress.above(k),
            Err(Halted::Unusable) => return Err(Refusal::Unusable),
        }
    }
    judge(awaited.below, input, progress)?;
    note_input(
        &mut words[0..crate::METER_WORDS],
        awaited.at,
        input.0 as u32,
    );
    write_totals(&places, &run.stages, count, words);
    run.block = block_behind(awaited, input);
    run.slot = Slots(slot.0 + 1);
    Ok(progress.arriving)
}

// What is known of the input, where the arguments fit, and what is lent and stored but for the path's operators.
fn begin(run: &Run, words: &[u32], input: Units, choices: &[u64]) -> Option<Awaited>
    ensures begun { result ≡ begun_of run.now words.now (call_of input choices.now) }
    ensures fits { MatchOption result ⊤ (λ awaited. Begun run.now words.now input choices.now) }
{
    if arguments_fit(run.count, input, choices) {
        begin_run(run, words)
    } else {
        None
    }
}

// The first refusal that stands, of what the meter and all operators have told.
#[tactic(auto, unfolding(crate::specs::Steps::judged_of))]
fn judge(below: Units, input: Units, progress: Progress) -> Result<(), Refusal>
    ensures { result ≡ judged_of below.0 input.0 progress }
{
    if below.0 <= input.0 {
        return Err(Refusal::InputBreaksDeclaration);
    }
    if let Some(k) = progress.above {
        return Err(Refusal::ChoiceAboveGreatest(k));
    }
    if progress.fits {
        Ok(())
    } else {
        Err(Refusal::Unusable)
    }
}

// Whether there are as many choices as operators, and no amount is above the limit.
fn arguments_fit(operators: usize, input: Units, choices: &[u64]) -> bool
    ensures { result ≡ both (not (choices_miscounted operators (call_of input choices.now))) (not (amount_too_large (call_of input choices.now))) }
{
    let counted = choices.len() == operators;
    counted & (input.0 <= Units::LARGEST) & (joined(choices) <= Units::LARGEST)
}

// The amounts joined by "or": they are within the limit, 2^30 − 1, just where each is.
fn joined(amounts: &[u64]) -> u64
    ensures { result ≡ fold bit_or 0 amounts.now }
{
    amounts.iter().fold(0, |join, amount| join | *amount)
}
