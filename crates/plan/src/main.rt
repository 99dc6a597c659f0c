// An evening's re-planning from text: one command a line, one answer each (document 01, sections 6 and 7).

#![tactic(auto)]

use crate::kept::Book;
use console::fault::{Failure, Fault, say};
use console::input::each_line;
use console::listing::list;
use console::numbers::numbers_of;
use console::paper::print_page;
use console::print::hexadecimal;
use console::sheets::Sheet;
use console::tables::{Found, find};
use ledger::Record;
use ledger::holding::Holding;
use quantity::{Link, Quantity};
use sheet::read::read;
use sheet::write::write;
use std::io;
use std::io::Write;
use text::decimal::decimal_at;

mod kept;

#[derive(Clone, Copy)]
enum Command {
    Capacity,
    Release,
    Spare,
    Confirm,
    Admit,
    Hold,
    Figures,
    Page,
    Read,
    List,
}

fn main(rt: HostRuntime) -> io::Result<()> {
    let mut out = rt.stdout();
    let mut book = Book::new();
    each_line(&mut rt.stdin(), |line| {
        let answered = answer(&mut out, &mut book, line.text());
        say(&mut out, line.number, answered)?;
        Ok(true)
    })?;
    Ok(())
}

fn answer<W: Write>(out: &mut W, book: &mut Book, line: Option<&[u8]>) -> Result<(), Failure> {
    let (command, text) = command_in(line.ok_or(Fault::LineTooLong)?)?;
    match command {
        Command::Capacity => set_capacity(out, book, text),
        Command::Release => release(out, book, text),
        Command::Spare => spare(out, book, text),
        Command::Confirm => confirm(out, book, text),
        Command::Admit => admit(out, book, text),
        Command::Hold => hold(out, book, text),
        Command::Figures => Ok(list(out, Sheet::from_text(text)?.bytes())?),
        Command::Page => Ok(print_page(out, Sheet::from_text(text)?.bytes())?),
        Command::Read => write_back(out, Sheet::from_text(text)?.bytes()),
        Command::List => Ok(list_paths(out, book)?),
    }
}

// The command that a line begins with, and the text behind it. A command with numbers or a sheet goes on behind its word, one without ends with it.
fn command_in(line: &[u8]) -> Result<(Command, &[u8]), Fault> {
    let words: [(&[u8], Command); 10] = [
        (b"capacity", Command::Capacity),
        (b"release", Command::Release),
        (b"spare", Command::Spare),
        (b"confirm", Command::Confirm),
        (b"admit", Command::Admit),
        (b"hold", Command::Hold),
        (b"figures", Command::Figures),
        (b"page", Command::Page),
        (b"read", Command::Read),
        (b"list", Command::List),
    ];
    let Some(Found { what, behind }) = find(&words, line) else {
        return Err(Fault::UnknownCommand);
    };
    match (what, behind) {
        (Command::List, None) => Ok((what, b"")),
        (Command::List, Some(_)) | (_, None) => Err(Fault::UnknownCommand),
        (_, Some(text)) => Ok((what, text)),
    }
}

// `capacity LINK CAPACITY`, before the first path is held.
fn set_capacity<W: Write>(out: &mut W, book: &mut Book, text: &[u8]) -> Result<(), Failure> {
    let [link, capacity] = numbers_of::<2>(text)?;
    book.set_capacity(link, capacity)?;
    Ok(writeln!(out, "capacity {link} {capacity}")?)
}

// `release NUMBER`
fn release<W: Write>(out: &mut W, book: &mut Book, text: &[u8]) -> Result<(), Failure> {
    let [path] = numbers_of::<1>(text)?;
    book.release(path)?;
    Ok(writeln!(out, "released {path}")?)
}

// `spare LINK`
fn spare<W: Write>(out: &mut W, book: &Book, text: &[u8]) -> Result<(), Failure> {
    let [link] = numbers_of::<1>(text)?;
    let rate = book.spare(link)?;
    Ok(writeln!(out, "spare {link} {}", rate.0)?)
}

// `confirm NUMBER`
fn confirm<W: Write>(out: &mut W, book: &mut Book, text: &[u8]) -> Result<(), Failure> {
    let [path] = numbers_of::<1>(text)?;
    book.confirm(path)?;
    Ok(writeln!(out, "confirmed {path}")?)
}

// `admit NUMBER SHEET`: a path is admitted by being held and, if that is accepted, confirmed at once.
fn admit<W: Write>(out: &mut W, book: &mut Book, text: &[u8]) -> Result<(), Failure> {
    let (path, sheet) = path_in(text)?;
    let holding = book.hold(path, sheet.bytes())?;
    book.confirm(path)?;
    Ok(say_held(out, "admitted ", path, holding)?)
}

// `hold NUMBER SHEET`
fn hold<W: Write>(out: &mut W, book: &mut Book, text: &[u8]) -> Result<(), Failure> {
    let (path, sheet) = path_in(text)?;
    let holding = book.hold(path, sheet.bytes())?;
    Ok(say_held(out, "held ", path, holding)?)
}

// The word comes with the space behind it: each piece of a line is written by itself.
fn say_held<W: Write>(out: &mut W, word: &str, path: u64, holding: Holding) -> io::Result<()> {
    let Holding { rate, delay, .. } = holding;
    writeln!(out, "{word}{path} rate {} delay {}", rate.0, delay.0)
}

// A path's number and, behind a space, its sheet.
fn path_in(text: &[u8]) -> Result<(u64, Sheet), Fault> {
    let number = decimal_at(text, 0)?;
    match text.get(number.next..) {
        Some([b' ', sheet @ ..]) => Ok((number.value, Sheet::from_text(sheet)?)),
        _ => Err(Fault::NotANumber),
    }
}

// `read SHEET`: the sheet that is written of the path that is read.
fn write_back<W: Write>(out: &mut W, sheet: &[u8]) -> Result<(), Failure> {
    let mut written = [0; 256];
    let length = write(read(sheet)?, &mut written)?;
    write!(out, "read ")?;
    if let Some(bytes) = written.get(..length) {
        hexadecimal(out, bytes)?;
    }
    Ok(writeln!(out)?)
}

// `list`: a line for each path that stands, in order, a held one's with that word at its end, and how many there are.
fn list_paths<W: Write>(out: &mut W, book: &Book) -> io::Result<()> {
    for record in book.paths() {
        list_path(out, record)?;
    }
    let count = book.ledger.count;
    writeln!(out, "paths {count}")
}

fn list_path<W: Write>(out: &mut W, record: &Record) -> io::Result<()> {
    write!(out, "{} rate {} links", record.number.0, record.rate.0)?;
    for link in Link::LEAST..=Link::LARGEST {
        if record.is_on(Link(link)) {
            write!(out, " {link}")?;
        }
    }
    writeln!(out, "{}", if record.is_held() { " held" } else { "" })
}
