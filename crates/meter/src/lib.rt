// A meter: whether a slot's input keeps the declaration (document 01, sections 2, 6 and 7).

#![tactic(auto)]

ghost use Rattle.std.specs.Prelude.{◌≡◌};
ghost use Rattle.meter.specs.Meter.{room_of, meter_of, meter_words_after};

use crate::parts::{block_behind, counted_before, note_input};
use flow::Declaration;
use quantity::refusal::Refusal;
use quantity::{Slots, Units};

pub mod parts;

// The state of a meter: its next slot's number and, under a smooth declaration, the block's total.
#[derive(Clone, Copy)]
pub struct SourceMeter {
    pub declaration: Declaration,
    pub slot: Slots,
    pub block: Units,
}

// The most that the next slot's input may be.
pub fn room_left(state: SourceMeter, words: &[u32]) -> Result<Units, Refusal>
    ensures { result ≡ room_of state words.now }
{
    let awaited = counted_before(state, words)?;
    let end = awaited.below;
    if end.0 == 0 {
        return Err(Refusal::InputBreaksDeclaration);
    }
    Ok(Units(end.0 - 1))
}

// Takes the next slot's input, if it keeps the declaration: then the next state is answered. A refused input leaves the words as they were.
pub fn take(state: SourceMeter, words: &mut [u32], input: Units) -> Result<SourceMeter, Refusal>
    ensures { (result ≡ meter_of state words.old input.0) × (words.new ≡ meter_words_after state words.old input.0) }
{
    if Units::LARGEST < input.0 {
        return Err(Refusal::Unusable);
    }
    let awaited = counted_before(state, words)?;
    if awaited.below.0 <= input.0 {
        return Err(Refusal::InputBreaksDeclaration);
    }
    note_input(words, awaited.at, input.0 as u32);
    Ok(SourceMeter {
        slot: Slots(state.slot.0 + 1),
        block: block_behind(awaited, input),
        ..state
    })
}
