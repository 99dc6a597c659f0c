// Bytes in hexadecimal.

ghost use Rattle.std.specs.Prelude.{◌≡◌, ◌+◌, Some, None, Err, length, get_or, drop, eqb};
ghost use Rattle.quantity.specs.Choice.{pick, both};
ghost use Rattle.text.specs.Rows.{space, answer_of};
ghost use Rattle.text.specs.Hexadecimals.{is_hexadecimal_digit, digit_value, byte_of, bytes_in, fitted, hexadecimal_from, bytes_stored};

use crate::SPACE;

// A text is something else than bytes; it is more bytes than there are places.
#[derive(Clone, Copy)]
pub enum HexadecimalFault {
    NotHexadecimal,
    TooLong,
}

// The bytes of a text from an index on, and how many they are: put into `bytes` if the text is nothing else and each has a place.
pub fn hexadecimal_from(
    text: &[u8],
    from: usize,
    bytes: &mut [u8],
) -> Result<usize, HexadecimalFault>
    ensures { (result ≡ hexadecimal_from text.now from (length bytes.old)) × (bytes.new ≡ bytes_stored text.now from bytes.old) }
{
    let length = judge(text, from)?;
    if bytes.len() < length {
        return Err(HexadecimalFault::TooLong);
    }
    store(text, from, bytes);
    Ok(length)
}

// What is answered where each byte has a place; nothing is written yet.
fn judge(text: &[u8], from: usize) -> Result<usize, HexadecimalFault>
    ensures { result ≡ answer_of (bytes_in (drop from text.now)) }
{
    if text.len() <= from {
        return Ok(0);
    }
    let mut at = from;
    let mut count = 0;
    // A turn passes two bytes or three, so no range counts the turns.
    loop {
        if byte_at(text, at).is_none() {
            return Err(HexadecimalFault::NotHexadecimal);
        }
        count += 1;
        if text.len() <= at + 2 {
            return Ok(count);
        }
        at = behind_space(text, at + 2);
    }
}

// The bytes of a text that has no fault.
fn store(text: &[u8], from: usize, bytes: &mut [u8])
    requires { (why : HexadecimalFault) → fitted (length bytes.old) (bytes_in (drop from text.now)) ≡ Err why → ⊥ }
    ensures { bytes.new ≡ bytes_stored text.now from bytes.old }
{
    let mut at = from;
    for place in bytes.iter_mut() {
        let Some(byte) = byte_at(text, at) else {
            return;
        };
        *place = byte;
        at = behind_space(text, at + 2);
    }
}

// The index behind the space that stands at an index; where none does, the index itself.
fn behind_space(text: &[u8], at: usize) -> usize
    ensures { result ≡ pick (eqb (get_or text.now at 0) space) (at + 1) at }
{
    if text.get(at) == Some(&SPACE) {
        at + 1
    } else {
        at
    }
}

// The byte whose two digits stand at an index.
fn byte_at(text: &[u8], at: usize) -> Option<u8>
    ensures { result ≡ pick (both (is_hexadecimal_digit (get_or text.now at 0)) (is_hexadecimal_digit (get_or text.now (at + 1) 0))) (Some (byte_of (get_or text.now at 0) (get_or text.now (at + 1) 0))) None }
{
    let high = digit_at(text, at)?;
    let low = digit_at(text, at + 1)?;
    Some(16 * high + low)
}

// The value of the digit that stands at an index. Past the end none stands.
fn digit_at(text: &[u8], at: usize) -> Option<u8>
    ensures { result ≡ pick (is_hexadecimal_digit (get_or text.now at 0)) (Some (digit_value (get_or text.now at 0))) None }
{
    digit_value(*text.get(at)?)
}

// By ranges: to_digit answers 32 bits of a char, to be narrowed again.
#[tactic(auto, unfolding(crate::specs::Decimals::is_digit, crate::specs::Hexadecimals::is_lower_case_digit, crate::specs::Hexadecimals::is_upper_case_digit, crate::specs::Hexadecimals::is_hexadecimal_digit, crate::specs::Hexadecimals::digit_value))]
fn digit_value(byte: u8) -> Option<u8>
    ensures { result ≡ pick (is_hexadecimal_digit byte) (Some (digit_value byte)) None }
{
    match byte {
        b'0'..=b'9' => Some(byte - b'0'),
        b'a'..=b'f' => Some(10 + (byte - b'a')),
        b'A'..=b'F' => Some(10 + (byte - b'A')),
        _ => None,
    }
}
