// The numbers of a command.

ghost use Rattle.std.specs.Prelude.{◌≡◌, min};

use crate::fault::Fault;
use text::decimal::decimals_from;

// The numbers of a command, which are all its text: one or two.
pub fn numbers_of<const N: usize>(text: &[u8]) -> Result<[u64; N], Fault> {
    let mut numbers = [0; 2];
    let count = decimals_from(text, 0, &mut numbers)?;
    if N < count {
        return Err(Fault::TooManyNumbers);
    }
    match numbers[..count].first_chunk::<N>() {
        Some(numbers) => Ok(*numbers),
        None => Err(Fault::TooFewNumbers),
    }
}

// The numbers of a command, two by two, and how many there are. Fixed memory with its length, as in the libraries (no heap).
pub fn pairs_of(text: &[u8], numbers: &mut [u64; 10]) -> Result<usize, Fault> {
    let count = decimals_from(text, 0, numbers)?;
    if count % 2 == 1 {
        return Err(Fault::TooFewNumbers);
    }
    Ok(count)
}

// A number as a quantity of 32 bits takes it. What these do not hold is out of every range, as their largest number is.
pub fn narrow(n: u64) -> u32
    ensures { result ≡ min n 4_294_967_295 }
{
    u32::try_from(n).unwrap_or(u32::MAX)
}
