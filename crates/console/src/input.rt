// The lines of standard input, one after the other.

ghost use Rattle.std.specs.Prelude.{◌≡◌, ℕ, ◌+◌, ◌<◌, ◌≤◌, false, None, Some, IfOk, OnErr, length, take, unwrap_or};
ghost use Rattle.std.specs.Option.{MatchOption};
ghost use Rattle.std.specs.Io.{ReadsAtMost};
ghost use Rattle.std.specs.Io.KnownBytes.{Consumes, IsAtEnd, Keeps};

use std::io;
use std::io::Read;
use text::line::gather;

// Fixed memory with its length, as in the libraries (no heap), and so `Input`.
// The number of the line, and whether it is whole; its bytes so far, as many as `length` says; none, if it has more than there are places.
#[derive(Drop)]
pub struct Line {
    pub number: u64,
    pub whole: bool,
    length: Option<usize>,
    bytes: [u8; 1023],
    ghost within: { unwrap_or length 0 ≤ 1023 },
}

impl Line {
    ghost use Rattle.console.specs.Held.{line_text};

    pub fn new() -> Line
        ensures { (result.number ≡ 0) × (result.whole ≡ false) }
    {
        Line {
            number: 0,
            whole: false,
            length: Some(0),
            bytes: [0; 1023],
        }
    }

    // Its bytes; none, if it has more than 1,023.
    pub fn text(&self) -> Option<&[u8]>
        ensures { MatchOption result (line_text self.now ≡ None) (λ text. line_text self.now ≡ Some text.now) }
    {
        Some(&self.bytes[..self.length?])
    }

    // Behind a whole line the next one begins.
    fn begin(&mut self) {
        if self.whole {
            self.whole = false;
            self.length = Some(0);
        }
    }

    fn end(&mut self) {
        self.whole = true;
        self.number = self.number.wrapping_add(1);
    }

    // Goes on to the line's end or to the end of the bytes, whichever comes first, and answers how many bytes are passed.
    fn gather(&mut self, bytes: &[u8]) -> usize
        ensures { result ≤ length bytes.now }
    {
        match bytes.iter().position(|byte| *byte == b'\n') {
            Some(n) => {
                self.length = gather_bytes(&mut self.bytes, self.length, &bytes[..n]);
                self.end();
                n + 1
            }
            None => {
                self.length = gather_bytes(&mut self.bytes, self.length, bytes);
                bytes.len()
            }
        }
    }
}

// How many bytes a line has with these behind it.
fn gather_bytes(line: &mut [u8; 1023], length: Option<usize>, bytes: &[u8]) -> Option<usize>
    requires { unwrap_or length 0 ≤ 1023 }
    ensures { unwrap_or result 0 ≤ 1023 }
{
    let mut longer = length?;
    for byte in bytes {
        longer = gather(line, longer, *byte)?;
    }
    Some(longer)
}

// The block that was read, the place in it and its end, and whether the input has ended.
#[derive(Clone, Copy)]
pub struct Input {
    pub ended: bool,
    at: usize,
    count: usize,
    block: [u8; 4096],
    ghost at_within: { at ≤ count },
    ghost count_within: { count ≤ 4096 },
}

impl Input {
    pub fn new() -> Input
        ensures { result.ended ≡ false }
    {
        Input {
            ended: false,
            at: 0,
            count: 0,
            block: [0; 4096],
        }
    }

    // Goes on to the line's end or to the end of the block, whichever comes first; behind a whole line the next one begins.
    // Where the input ends, bytes without a line feed are a line too.
    // The only error is the reader's own; the line is then as it was, and so are the place in the input and the bytes that the reader still has, where they are known.
    pub fn advance<R: Read>(&mut self, from: &mut R, line: &mut Line) -> io::Result<()>
        ensures err { OnErr result ((line.new ≡ line.old) × Keeps (R.remaining from.old) (R.remaining from.new)) }
        ensures input { OnErr result ((self.new.ended ≡ self.old.ended) × (self.new.at ≡ self.old.at) × (self.new.count ≡ self.old.count)) }
    {
        if self.at == self.count {
            let count = from.read(&mut self.block)?;
            self.at = 0;
            self.count = count;
        }
        line.begin();
        if self.at < self.count {
            self.at += line.gather(&self.block[self.at..self.count]);
            return Ok(());
        }
        self.ended = true;
        if line.length != Some(0) {
            line.end();
        }
        Ok(())
    }
}

// Hands each line to the closure, as long as it answers that more are wanted, and says how many lines there were.
// The only errors are the reader's and the closure's.
pub fn each_line<R: Read, F: FnMut(&Line) -> io::Result<bool>>(
    from: &mut R,
    mut each: F,
) -> io::Result<u64>
    requires { F.IsAlwaysCallable each }
{
    let mut input = Input::new();
    let mut line = Line::new();
    // A proved loop has to end, and nothing says that the input does, so there are more turns than any input uses up.
    for _ in 0..u64::MAX {
        input.advance(from, &mut line)?;
        if line.whole && !each(&line)? {
            break;
        }
        if input.ended {
            break;
        }
    }
    Ok(line.number)
}

// Reads until all places are taken or the input ends, and answers how many bytes stand at the front. The only error is the reader's own;
// what was taken from the reader then stands at the front.
pub fn read_full<R: Read>(from: &mut R, bytes: &mut [u8]) -> io::Result<usize>
    ensures count { ReadsAtMost result bytes.new }
    ensures front { IfOk result (λ n. Consumes (R.remaining from.old) (R.remaining from.new) (take n bytes.new)) }
    ensures short { IfOk result (λ n. n < length bytes.new → IsAtEnd (R.remaining from.new)) }
    ensures err { OnErr result ((n : ℕ) × Consumes (R.remaining from.old) (R.remaining from.new) (take n bytes.new)) }
{
    let mut done = 0;
    // A read gives as many bytes as it will, so no range counts the turns. Not `read_exact`: an end before the last place is no error here, and what was read is counted.
    while done < bytes.len() {
        let n = from.read(&mut bytes[done..])?;
        if n == 0 {
            return Ok(done);
        }
        done += n;
    }
    Ok(done)
}
