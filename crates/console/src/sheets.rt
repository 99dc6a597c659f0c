// A sheet as text, which is in hexadecimal.

ghost use Rattle.std.specs.Prelude.{◌≡◌, ◌≤◌, IfOk, Ok, replicate, take};
ghost use Rattle.text.specs.Hexadecimals.{hexadecimal_from, bytes_stored};

use crate::fault::Fault;
use text::hexadecimal::hexadecimal_from;

// The bytes of a sheet: the first `length`. Fixed memory with its length, as in the libraries (no heap).
#[derive(Clone, Copy)]
pub struct Sheet {
    bytes: [u8; 512],
    length: usize,
    ghost within: { length ≤ 512 },
}

impl Sheet {
    ghost use Rattle.console.specs.Held.{sheet_length, sheet_bytes};

    pub fn from_text(text: &[u8]) -> Result<Sheet, Fault>
        ensures { IfOk result (λ sheet. (hexadecimal_from text.now 0 512 ≡ Ok (sheet_length sheet)) × (sheet_bytes sheet ≡ take (sheet_length sheet) (bytes_stored text.now 0 (replicate 512 0)))) }
    {
        let mut bytes = [0; 512];
        let length = hexadecimal_from(text, 0, &mut bytes)?;
        Ok(Sheet { bytes, length })
    }

    pub fn bytes(&self) -> &[u8]
        ensures { result.now ≡ sheet_bytes self.now }
    {
        &self.bytes[..self.length]
    }
}
