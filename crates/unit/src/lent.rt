// The lent words of a unit.

use console::fault::{Failure, Fault};
use console::numbers::{narrow, numbers_of};
use std::io::Write;

// `set word J N`
pub(crate) fn set_word<W: Write>(
    out: &mut W,
    text: &[u8],
    words: &mut [u32],
) -> Result<(), Failure> {
    let [j, number] = numbers_of::<2>(text)?;
    if words.len() as u64 <= j {
        return Err(Failure::Wrong(Fault::NoSuchWord));
    }
    let word = narrow(number);
    words[j as usize] = word;
    writeln!(out, "set word {j} {word}")?;
    Ok(())
}

// `words N`
pub(crate) fn list_words<W: Write>(out: &mut W, text: &[u8], words: &[u32]) -> Result<(), Failure> {
    let [count] = numbers_of::<1>(text)?;
    if (words.len() as u64) < count {
        return Err(Failure::Wrong(Fault::NoSuchWord));
    }
    write!(out, "words")?;
    for word in &words[..count as usize] {
        write!(out, " {word}")?;
    }
    writeln!(out)?;
    Ok(())
}
