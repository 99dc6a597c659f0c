// Texts, bytes, refusals and errors, as a program writes them. The only error is the writer's own, and what was written before it is not known.

ghost use Rattle.std.specs.Prelude.{◌≡◌, ◌≤◌, OnOk, IfSome};
ghost use Rattle.std.specs.Io.KnownBytes.{Appends};
ghost use Rattle.std.specs.List.{flat_map};
ghost use Rattle.console.specs.Printed.{digit_of, hexadecimal_of, refused_text, error_text};

use quantity::refusal::Refusal;
use std::fmt::Display;
use std::io;
use std::io::Write;

// write_all with a name: bytes that are no text.
pub fn text<W: Write>(out: &mut W, bytes: &[u8]) -> io::Result<()>
    ensures { OnOk result (Appends (W.contents out.old) (W.contents out.new) bytes.now) }
{
    out.write_all(bytes)
}

// Bytes in hexadecimal, two digits each, which are written together: each write to an output without a buffer is a call of the system.
pub fn hexadecimal<W: Write>(out: &mut W, bytes: &[u8]) -> io::Result<()>
    ensures { OnOk result (Appends (W.contents out.old) (W.contents out.new) (flat_map hexadecimal_of bytes.now)) }
{
    // Not by `{byte:02x}`, which writes a 0 in front by itself.
    for byte in bytes {
        text(out, &[digit(*byte / 16), digit(*byte % 16)])?;
    }
    Ok(())
}

fn digit(value: u8) -> u8
    requires { value ≤ 15 }
    ensures { result ≡ digit_of value }
{
    if value < 10 {
        value + b'0'
    } else {
        value - 10 + b'a'
    }
}

// A refusal on a line of its own.
pub fn refused<W: Write>(out: &mut W, why: Refusal) -> io::Result<()>
    ensures { OnOk result (Appends (W.contents out.old) (W.contents out.new) (refused_text why)) }
{
    writeln!(out, "{why}")
}

// `error`, the number of the line, and what is wrong with it.
pub fn error<W: Write, D: Display + Drop>(out: &mut W, line: u64, what: D) -> io::Result<()>
    ensures { OnOk result (IfSome (D.output what) (λ words. Appends (W.contents out.old) (W.contents out.new) (error_text line words))) }
{
    writeln!(out, "error {line} {what}")
}
