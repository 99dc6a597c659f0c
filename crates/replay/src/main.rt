// Runs paths slot by slot from text: a sheet in hexadecimal, then a slot a line (document 01, sections 3, 6 and 7).

#![tactic(auto)]

ghost use Rattle.std.specs.Prelude.{◌≤◌, IfOk};

use console::fault::{Failure, Fault, say};
use console::input::{Line, each_line};
use console::sheets::Sheet;
use console::tables::{Found, find};
use quantity::Units;
use run::Run;
use run::opening::open;
use run::slot::slot;
use run::watch::held;
use std::io;
use std::io::Write;
use text::decimal::decimals_from;

fn main(rt: HostRuntime) -> io::Result<()> {
    let mut out = rt.stdout();
    let mut words = [0; 2048];
    let mut run = None;
    each_line(&mut rt.stdin(), |line| {
        let answered = answer(&mut out, &mut run, line, &mut words);
        // A sheet that is refused on the first line ends the program.
        let ended = line.number == 1 && matches!(&answered, Err(Failure::Refused(_)));
        say(&mut out, line.number, answered)?;
        Ok(!ended)
    })?;
    Ok(())
}

// A sheet or a slot. The first line is a sheet, with or without the word before it.
fn answer<W: Write>(
    out: &mut W,
    run: &mut Option<Run>,
    line: &Line,
    words: &mut [u32; 2048],
) -> Result<(), Failure> {
    let text = line.text().ok_or(Fault::LineTooLong)?;
    if let Some(
        Found {
            behind: Some(sheet),
            ..
        },
    ) = find(&[(b"sheet", ())], text)
    {
        return open_sheet(run, sheet, words);
    }
    if line.number == 1 {
        return open_sheet(run, text, words);
    }
    let Some(run) = run else {
        return Err(Failure::Wrong(Fault::NoPath));
    };
    run_slot(out, run, text, words)
}

// Opens a path. A sheet that is refused is no path.
fn open_sheet(run: &mut Option<Run>, text: &[u8], words: &mut [u32; 2048]) -> Result<(), Failure> {
    let sheet = Sheet::from_text(text)?;
    *run = None;
    *run = Some(open(sheet.bytes(), words)?);
    Ok(())
}

// The input and a choice for each operator.
fn run_slot<W: Write>(
    out: &mut W,
    run: &mut Run,
    text: &[u8],
    words: &mut [u32; 2048],
) -> Result<(), Failure> {
    let mut numbers = [0; 512];
    let count = numbers_in(text, &mut numbers)?;
    let number = run.slot.0;
    let slotted = slot(*run, words, Units(numbers[0]), &numbers[1..count])?;
    *run = slotted.run;
    Ok(sent(out, number, slotted.output, run, words)?)
}

fn numbers_in(text: &[u8], numbers: &mut [u64; 512]) -> Result<usize, Fault>
    ensures { IfOk result (λ count. (1 ≤ count) × (count ≤ 512)) }
{
    Ok(decimals_from(text, 0, numbers)?)
}

// The slot's number, the output, and what each operator holds then.
fn sent<W: Write>(
    out: &mut W,
    slot: u32,
    output: Units,
    after: &Run,
    words: &[u32; 2048],
) -> io::Result<()> {
    write!(out, "slot {slot} output {} held", output.0)?;
    let units = held(*after, words).unwrap_or([Units(0); 16]);
    for here in units.iter().take(after.count) {
        write!(out, " {}", here.0)?;
    }
    writeln!(out)
}
