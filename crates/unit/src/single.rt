// A single operator's commands.

use crate::command::Word;
use crate::lent::{list_words, set_word};
use crate::setting::{set_slot, set_units};
use console::fault::{Failure, Fault};
use console::numbers::numbers_of;
use console::tables::Found;
use operator::SingleOperator;
use operator::parts::stored_in;
use operator::single::{Outputs, Sent, bounds_alone, step_alone};
use quantity::{Slots, Units};
use std::io::Write;

// A command with numbers goes on behind its words, one without ends with them.
pub(crate) fn answer<W: Write>(
    out: &mut W,
    state: &mut SingleOperator,
    command: Option<Found<Word>>,
    words: &mut [u32],
) -> Result<(), Failure> {
    let Found { what, behind } = command.ok_or(Fault::UnknownCommand)?;
    match (what, behind) {
        (Word::SetSlot, Some(text)) => state.slot = set_slot(out, text)?,
        (Word::SetHeld, Some(text)) => state.held = set_units(out, "held ", text)?,
        (Word::SetBeside, Some(text)) => state.beside = set_units(out, "beside ", text)?,
        (Word::SetWord, Some(text)) => set_word(out, text, words)?,
        (Word::Step, Some(text)) => step(out, state, text, words)?,
        (Word::Bounds, Some(text)) => ask_bounds(out, state, text, words)?,
        (Word::State, None) => show(out, state)?,
        (Word::Words, Some(text)) => list_words(out, text, words)?,
        (Word::SetBlock | Word::Take, Some(_)) | (Word::Room, None) => {
            return Err(Failure::Wrong(Fault::NotAMeter));
        }
        _ => return Err(Failure::Wrong(Fault::UnknownCommand)),
    }
    Ok(())
}

// `step INPUT CHOICE`
fn step<W: Write>(
    out: &mut W,
    state: &mut SingleOperator,
    text: &[u8],
    words: &mut [u32],
) -> Result<(), Failure> {
    let [input, choice] = numbers_of::<2>(text)?;
    let bounds = bounds_alone(*state, words, Units(input));
    let Sent { output, next } = step_alone(*state, words, Units(input), Units(choice))?;
    // A step that is sent has bounds.
    let Outputs { least, greatest } = bounds?;
    writeln!(
        out,
        "slot {} least {} greatest {} output {} held {}",
        state.slot.0,
        least.0,
        greatest.0,
        output.0,
        held_in(next, words)
    )?;
    *state = next;
    Ok(())
}

// `bounds INPUT`
fn ask_bounds<W: Write>(
    out: &mut W,
    state: &SingleOperator,
    text: &[u8],
    words: &[u32],
) -> Result<(), Failure> {
    let [input] = numbers_of::<1>(text)?;
    let Outputs { least, greatest } = bounds_alone(*state, words, Units(input))?;
    writeln!(
        out,
        "slot {} least {} greatest {}",
        state.slot.0, least.0, greatest.0
    )?;
    Ok(())
}

// Section 3's b. It does not depend on the slot, and is asked for as in slot 0: behind the last slot the call refuses.
fn held_in(mut state: SingleOperator, words: &[u32]) -> u64 {
    state.slot = Slots(0);
    stored_in(state, words).map_or(0, |held| held.0)
}

// `state`
fn show<W: Write>(out: &mut W, state: &SingleOperator) -> Result<(), Failure> {
    writeln!(
        out,
        "slot {} held {} beside {}",
        state.slot.0, state.held.0, state.beside.0
    )?;
    Ok(())
}
