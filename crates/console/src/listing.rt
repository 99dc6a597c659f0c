// The listing of a sheet (document 01, section 8): a line for each operator and one for the path, or the refusal.

use crate::print::{refused, text};
use figures::{Figure, PathFigures, figures};
use operator::Operator;
use quantity::Units;
use std::io;
use std::io::Write;

pub fn list<W: Write>(out: &mut W, sheet: &[u8]) -> io::Result<()> {
    match figures(sheet) {
        Ok(answer) => {
            lines(out, &answer)?;
            writeln!(out, "path {} {}", sum(&answer.figures).0, answer.delay.0)
        }
        Err(why) => refused(out, why),
    }
}

// The capacities of all sixteen places: behind the path's operators they are 0.
fn sum(figures: &[Figure; 16]) -> Units {
    figures
        .iter()
        .fold(Units(0), |sum, figure| sum.plus(figure.capacity))
}

fn lines<W: Write>(out: &mut W, answer: &PathFigures) -> io::Result<()> {
    let path = &answer.path;
    let placed = path.operators.iter().zip(&answer.figures);
    for (k, (linked, figure)) in placed.take(path.count).enumerate() {
        write!(out, "{k}")?;
        kind(out, linked.operator)?;
        writeln!(out, "{} {}", figure.capacity.0, figure.delay.0)?;
    }
    Ok(())
}

// The kind with a space on each side, written together: each write to an output without a buffer is a call of the system.
fn kind<W: Write>(out: &mut W, operator: Operator) -> io::Result<()> {
    let mut spaced = [b' '; 11];
    let name = operator.name().as_bytes();
    for (place, byte) in spaced[1..].iter_mut().zip(name) {
        *place = *byte;
    }
    text(out, &spaced[..spaced.len().min(name.len() + 2)])
}
