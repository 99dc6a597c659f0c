// A meter's commands.

use crate::command::Word;
use crate::lent::{list_words, set_word};
use crate::setting::{set_slot, set_units};
use console::fault::{Failure, Fault};
use console::numbers::numbers_of;
use console::tables::Found;
use meter::{SourceMeter, room_left};
use quantity::Units;
use std::io::Write;

// A command with numbers goes on behind its words, one without ends with them.
pub(crate) fn answer<W: Write>(
    out: &mut W,
    state: &mut SourceMeter,
    command: Option<Found<Word>>,
    words: &mut [u32],
) -> Result<(), Failure> {
    let Found { what, behind } = command.ok_or(Fault::UnknownCommand)?;
    match (what, behind) {
        (Word::SetSlot, Some(text)) => state.slot = set_slot(out, text)?,
        (Word::SetBlock, Some(text)) => state.block = set_units(out, "block ", text)?,
        (Word::SetWord, Some(text)) => set_word(out, text, words)?,
        (Word::Take, Some(text)) => take(out, state, text, words)?,
        (Word::Room, None) => ask_room(out, state, words)?,
        (Word::State, None) => show(out, state)?,
        (Word::Words, Some(text)) => list_words(out, text, words)?,
        (Word::SetHeld | Word::SetBeside | Word::Step | Word::Bounds, Some(_)) => {
            return Err(Failure::Wrong(Fault::NotAnOperator));
        }
        _ => return Err(Failure::Wrong(Fault::UnknownCommand)),
    }
    Ok(())
}

// `take INPUT`
fn take<W: Write>(
    out: &mut W,
    state: &mut SourceMeter,
    text: &[u8],
    words: &mut [u32],
) -> Result<(), Failure> {
    let [input] = numbers_of::<1>(text)?;
    let room = room_left(*state, words);
    let next = meter::take(*state, words, Units(input))?;
    // An input that is taken has room.
    let most = room?;
    writeln!(out, "slot {} room {} taken {input}", state.slot.0, most.0)?;
    *state = next;
    Ok(())
}

// `room`
fn ask_room<W: Write>(out: &mut W, state: &SourceMeter, words: &[u32]) -> Result<(), Failure> {
    let most = room_left(*state, words)?;
    writeln!(out, "slot {} room {}", state.slot.0, most.0)?;
    Ok(())
}

// `state`
fn show<W: Write>(out: &mut W, state: &SourceMeter) -> Result<(), Failure> {
    writeln!(out, "slot {} block {}", state.slot.0, state.block.0)?;
    Ok(())
}
