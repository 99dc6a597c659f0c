// Slots of a run.

use crate::{Parts, mix, mix_pair, mix_refusal};
use quantity::Units;
use run::Run;
use run::opening::open;
use run::slot::slot;
use words::all_clear;

// Reads all words once in each turn, and stores one of them anew: the least that the test of a run's words leaves possible.
#[unsafe(no_mangle)]
pub extern "C" fn workload_words(words: &mut [u32], turns: u64) -> u64 {
    let mut sum = 0;
    for (_, at) in (0..turns).zip((0..words.len()).cycle()) {
        sum = mix(sum, u64::from(all_clear(words)));
        if let Some(word) = words.get_mut(at) {
            *word = 0;
        }
    }
    sum
}

// Opens the run of a sheet and takes a slot in each turn, with an input and as many choices as the width says.
#[unsafe(no_mangle)]
pub extern "C" fn workload_slots(
    sheet: &[u8],
    words: &mut [u32],
    inputs: &[u64],
    choices: &[u64],
    width: usize,
    turns: u64,
) -> u64 {
    match open(sheet, words) {
        Err(why) => mix_refusal(0, why),
        Ok(run) => slots_of(run, words, inputs, choices, width, turns),
    }
}

fn slots_of(
    mut run: Run,
    words: &mut [u32],
    inputs: &[u64],
    choices: &[u64],
    width: usize,
    turns: u64,
) -> u64 {
    if inputs.is_empty() {
        return 0;
    }
    let mut sum = 0;
    let asked = inputs.iter().cycle().zip(Parts::new(choices, width));
    for (_, (input, chosen)) in (0..turns).zip(asked) {
        match &slot(run, words, Units(*input), chosen) {
            Ok(slotted) => {
                run = slotted.run;
                sum = mix(sum, slotted.output.0);
            }
            Err(why) => sum = mix_refusal(sum, *why),
        }
    }
    mix_run(sum, &run)
}

// The slot, the block and what each stage of the path stores.
fn mix_run(sum: u64, run: &Run) -> u64 {
    let mut next = mix(mix(sum, u64::from(run.slot.0)), run.block.0);
    for stage in &run.stages[..run.count.min(16)] {
        next = mix(mix(next, stage.held.0), stage.beside.0);
        next = mix_pair(next, stage.entered, stage.left);
    }
    next
}
