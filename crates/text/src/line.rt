// A line that is gathered byte by byte, and how a text begins.

ghost use Rattle.std.specs.Prelude.{◌≡◌};
ghost use Rattle.text.specs.Lines.{gathered_of, line_after, begins_with};

// One more byte of a line that has `length` bytes so far. The answer is how many it has now; none, if there is no place for one more.
// Not by get_mut: of what is written through it a proof knows no element.
pub fn gather(line: &mut [u8], length: usize, byte: u8) -> Option<usize>
    ensures { (result ≡ gathered_of line.old length) × (line.new ≡ line_after line.old length byte) }
{
    if length < line.len() {
        line[length] = byte;
        Some(length + 1)
    } else {
        None
    }
}

// Whether a text begins with a word. Public (README): the library's starts_with, with a clause over our definition.
pub fn starts_with(text: &[u8], word: &[u8]) -> bool
    ensures { result ≡ begins_with text.now word.now }
{
    text.starts_with(word)
}
