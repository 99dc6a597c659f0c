// Inputs of a meter alone.

use crate::{mix, mix_refusal};
use flow::{Declaration, DeclaredRow, Kind};
use meter::{SourceMeter, take};
use quantity::{Interval, Quota, Slots, Units};

// From a slot on, takes an input in each turn by the meter of a declaration.
#[unsafe(no_mangle)]
pub extern "C" fn workload_metering(
    declared: &[u32],
    slot: u32,
    words: &mut [u32],
    inputs: &[u64],
    turns: u64,
) -> u64 {
    let Some(declared) = declared.as_array::<10>() else {
        return 0;
    };
    if inputs.is_empty() {
        return 0;
    }
    let mut state = SourceMeter {
        declaration: declaration_of(declared),
        slot: Slots(slot),
        block: Units(0),
    };
    let mut sum = 0;
    for (_, input) in (0..turns).zip(inputs.iter().cycle()) {
        match take(state, words, Units(*input)) {
            Ok(next) => {
                state = next;
                sum = mix(sum, 0);
            }
            Err(why) => sum = mix_refusal(sum, why),
        }
    }
    mix(mix(sum, u64::from(state.slot.0)), state.block.0)
}

// The numbers of a declaration: its kind (0 smooth, 1 uniform, else rows), how many rows it has, and four rows, of which smooth and uniform have the first.
fn declaration_of(numbers: &[u32; 10]) -> Declaration {
    let [kind, count, m, q, m2, q2, m3, q3, m4, q4] = *numbers;
    match kind {
        0 => Declaration::of_one_row(Kind::Smooth, Interval(m), Quota(q)),
        1 => Declaration::of_one_row(Kind::Uniform, Interval(m), Quota(q)),
        _ => Declaration::of_rows(
            count as usize,
            [
                DeclaredRow::of(m, q),
                DeclaredRow::of(m2, q2),
                DeclaredRow::of(m3, q3),
                DeclaredRow::of(m4, q4),
            ],
        ),
    }
}
