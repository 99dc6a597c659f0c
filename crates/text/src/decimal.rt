// Decimal numbers in a text.

ghost use Rattle.std.specs.Prelude.{◌≡◌, ◌+◌, ◌*◌, ◌-◌, Some, None, Err, length, get_or, leb};
ghost use Rattle.quantity.specs.Limits.{largest64};
ghost use Rattle.quantity.specs.Choice.{pick};
ghost use Rattle.text.specs.Decimals.{is_digit, decimal_at};
ghost use Rattle.text.specs.DecimalRows.{fault_of, row_from, decimals_from, numbers_after};

use crate::SPACE;

// A number and the index behind its last digit.
#[derive(Clone, Copy)]
pub struct Number {
    pub value: u64,
    pub next: usize,
}

// Why no number is read.
#[derive(Clone, Copy)]
pub enum NumberFault {
    NoDigit,
    TooLarge,
}

// The first fault of a text of numbers, from left to right.
#[derive(Clone, Copy)]
pub enum NumbersFault {
    NotANumber,
    TooLarge,
    TooMany,
}

impl From<NumberFault> for NumbersFault {
    ghost from_gives = { λ why result. result ≡ fault_of why };

    fn from(why: NumberFault) -> NumbersFault {
        match why {
            NumberFault::NoDigit => NumbersFault::NotANumber,
            NumberFault::TooLarge => NumbersFault::TooLarge,
        }
    }
}

// The number whose digits stand in the text from an index on, as many as stand there in a row.
pub fn decimal_at(text: &[u8], from: usize) -> Result<Number, NumberFault>
    ensures { result ≡ decimal_at text.now from }
{
    if digit_at(text, from).is_none() {
        return Err(NumberFault::NoDigit);
    }
    let mut value = 0;
    let mut next = from;
    // How many digits there are is what the loop finds out, so no range is gone through.
    while let Some(digit) = digit_at(text, next) {
        value = extend(value, digit).ok_or(NumberFault::TooLarge)?;
        next += 1;
    }
    Ok(Number { value, next })
}

// The numbers of a text from an index on, with single spaces between them: put into `numbers` if all are well and have a place.
pub fn decimals_from(text: &[u8], from: usize, numbers: &mut [u64]) -> Result<usize, NumbersFault>
    ensures { (result ≡ decimals_from text.now from (length numbers.old)) × (numbers.new ≡ numbers_after text.now from numbers.old) }
{
    let count = judge(text, from, numbers.len())?;
    store(text, from, numbers);
    Ok(count)
}

// What is answered; nothing is written yet.
fn judge(text: &[u8], from: usize, places: usize) -> Result<usize, NumbersFault>
    ensures { result ≡ decimals_from text.now from places }
{
    let mut at = from;
    for count in 0..places {
        let number = decimal_at(text, at)?;
        match text.get(number.next) {
            None => return Ok(count + 1),
            Some(&SPACE) => at = number.next + 1,
            Some(_) => return Err(NumbersFault::NotANumber),
        }
    }
    decimal_at(text, at)?;
    Err(NumbersFault::TooMany)
}

// The numbers of a text that has no fault.
fn store(text: &[u8], from: usize, numbers: &mut [u64])
    requires { (why : NumbersFault) → row_from (length numbers.old) text.now from ≡ Err why → ⊥ }
    ensures { numbers.new ≡ numbers_after text.now from numbers.old }
{
    let mut at = from;
    for place in numbers.iter_mut() {
        let Ok(number) = decimal_at(text, at) else {
            return;
        };
        *place = number.value;
        if text.len() <= number.next {
            return;
        }
        at = number.next + 1;
    }
}

// The value of the digit that stands at an index. Past the end none stands. By a range: to_digit answers 32 bits of a char.
#[tactic(auto, unfolding(crate::specs::Decimals::is_digit))]
fn digit_at(text: &[u8], at: usize) -> Option<u64>
    ensures { result ≡ pick (is_digit (get_or text.now at 0)) (Some (get_or text.now at 0 - 48)) None }
{
    match text.get(at) {
        Some(&byte @ b'0'..=b'9') => Some(u64::from(byte - b'0')),
        _ => None,
    }
}

// Ten times the number and the digit.
fn extend(number: u64, digit: u64) -> Option<u64>
    ensures { result ≡ pick (leb (10 * number + digit) largest64) (Some (10 * number + digit)) None }
{
    number.checked_mul(10)?.checked_add(digit)
}
