// A path as text, one thing a line in the order of the sheet, becomes the sheet's bytes (document 01, sections 1 and 5).
// Behind a first line `hex` there are many, each ended by an empty line and answered by its bytes in hexadecimal or by its error.

#![tactic(auto)]

use crate::fault::PathFault;
use crate::line::{Part, part_of};
use crate::path::{Draft, Next};
use console::fault::Fault;
use console::input::{Line, each_line};
use console::print::{error, hexadecimal, refused, text};
use sheet::PathValue;
use sheet::write::write;
use std::io;
use std::io::Write;

mod fault;
mod line;
mod numbers;
mod path;
mod profile;

// The path that is read, whether there are many, in hexadecimal, and whether one was answered.
#[derive(Clone, Copy)]
struct State {
    draft: Draft,
    many: bool,
    answered: bool,
}

// What a line is: `hex`, an empty one between two paths, or a part of a path.
#[derive(Clone, Copy)]
enum Said {
    Hexadecimal,
    Empty,
    Part(Part),
}

fn main(rt: HostRuntime) -> io::Result<()> {
    let mut out = rt.stdout();
    let mut state = State {
        draft: Draft::empty(),
        many: false,
        answered: false,
    };
    let lines = each_line(&mut rt.stdin(), |line| {
        let said = said_in(line, state.many);
        state = state.behind(&mut out, line.number, said)?;
        Ok(!state.has_ended())
    })?;
    state.end_text(&mut out, lines.wrapping_add(1))
}

// `hex` is known as the first line alone, and an empty line behind it.
fn said_in(line: &Line, many: bool) -> Result<Said, PathFault> {
    let text = line.text().ok_or(Fault::LineTooLong)?;
    match text {
        [] if many => Ok(Said::Empty),
        b"hex" if line.number == 1 => Ok(Said::Hexadecimal),
        _ => Ok(Said::Part(part_of(text)?)),
    }
}

impl State {
    fn behind<W: Write>(
        mut self,
        out: &mut W,
        lines: u64,
        said: Result<Said, PathFault>,
    ) -> io::Result<State> {
        match said {
            Ok(Said::Hexadecimal) => self.many = true,
            Ok(Said::Empty) => {
                if self.draft.next != Next::Declaration {
                    self.answer(out, lines)?;
                    self.answered = true;
                }
                self.draft = Draft::empty();
            }
            Ok(Said::Part(part)) => match self.draft.with(part) {
                Ok(draft) => self.draft = draft,
                Err(why) => return self.fail(out, lines, why),
            },
            Err(why) => return self.fail(out, lines, why),
        }
        Ok(self)
    }

    // Of a path the first fault alone is said, and there is no sheet then.
    fn fail<W: Write>(mut self, out: &mut W, lines: u64, why: PathFault) -> io::Result<State> {
        if self.draft.next != Next::Wrong {
            error(out, lines, why)?;
        }
        self.draft.next = Next::Wrong;
        Ok(self)
    }

    // Without `hex` the first wrong line is the last that is read.
    fn has_ended(&self) -> bool {
        !self.many && self.draft.next == Next::Wrong
    }

    // The input ends, and with it the last path. A text without any path lacks a line.
    fn end_text<W: Write>(self, out: &mut W, lines: u64) -> io::Result<()> {
        if self.answered && self.draft.next == Next::Declaration {
            return Ok(());
        }
        self.answer(out, lines)
    }

    // A wrong line was answered where it stood.
    fn answer<W: Write>(self, out: &mut W, lines: u64) -> io::Result<()> {
        if self.draft.next == Next::Wrong {
            return Ok(());
        }
        if self.draft.is_whole() {
            write_path(out, self.draft.path, self.many)
        } else {
            error(out, lines, PathFault::LineMissing)
        }
    }
}

#[tactic(auto, using(crate::proofs::Written::written_within))]
fn write_path<W: Write>(out: &mut W, path: PathValue, in_hexadecimal: bool) -> io::Result<()> {
    let mut sheet = [0; 256];
    match write(path, &mut sheet) {
        Err(why) => refused(out, why),
        Ok(n) => write_bytes(out, &sheet[..n], in_hexadecimal),
    }
}

fn write_bytes<W: Write>(out: &mut W, bytes: &[u8], in_hexadecimal: bool) -> io::Result<()> {
    if in_hexadecimal {
        hexadecimal(out, bytes)?;
        text(out, b"\n")
    } else {
        text(out, bytes)
    }
}
