// Calls on sheets of one width that lie one behind the other.

use crate::{Parts, mix, mix_answer, mix_pair};
use figures::{PathFigures, figures};
use flow::{Declaration, DeclaredRow, Kind};
use operator::Operator;
use page::page;
use sheet::read::read;
use sheet::write::write;
use sheet::{PathValue, kind_and_number, no_path};

// The figures of a sheet in each turn, of which those of one operator go into the checksum.
#[unsafe(no_mangle)]
pub extern "C" fn workload_figures(sheets: &[u8], width: usize, turns: u64) -> u64 {
    let mut sum = 0;
    for (turn, sheet) in (0..turns).zip(Parts::new(sheets, width)) {
        sum = mix_answer(
            sum,
            &figures(sheet),
            |sum, answer| mix_figures(sum, answer, turn),
        );
    }
    sum
}

// A sheet is read in each turn. Of the operators the last goes into the checksum.
#[unsafe(no_mangle)]
pub extern "C" fn workload_reading(sheets: &[u8], width: usize, turns: u64) -> u64 {
    let mut sum = 0;
    for (_, sheet) in (0..turns).zip(Parts::new(sheets, width)) {
        sum = mix_answer(sum, &read(sheet), mix_path);
    }
    sum
}

// The page of a sheet in each turn, of which one byte goes into the checksum.
#[unsafe(no_mangle)]
pub extern "C" fn workload_pages(sheets: &[u8], width: usize, lent: &mut [u8], turns: u64) -> u64 {
    let mut sum = 0;
    for (left, sheet) in (1..=turns).rev().zip(Parts::new(sheets, width)) {
        sum = mix_answer(sum, &page(sheet, lent), mix_length);
        sum = mix_byte(sum, lent, (left % 1037) as usize);
    }
    sum
}

// Sheets are read into their places. These are lent: an array that was answered would be copied, and takes as much of the stack again.
fn read_into(paths: &mut [PathValue], sheets: &[u8], width: usize) {
    let mut sheets = Parts::new(sheets, width);
    for path in paths {
        *path = read(sheets.part()).unwrap_or(no_path());
    }
}

// Sheets are read, and then in each turn a path of one is written, of which one byte goes into the checksum.
#[unsafe(no_mangle)]
pub extern "C" fn workload_writing(
    sheets: &[u8],
    width: usize,
    written: &mut [u8],
    turns: u64,
) -> u64 {
    let mut paths = [no_path(); 64];
    read_into(&mut paths, sheets, width);
    let mut sum = 0;
    for (left, path) in (1..=turns).rev().zip(paths.iter().cycle()) {
        sum = mix_answer(sum, &write(*path, written), mix_length);
        sum = mix_byte(sum, written, (left % 256) as usize);
    }
    sum
}

fn mix_figures(sum: u64, answer: &PathFigures, turn: u64) -> u64 {
    let figure = answer.figures[(turn % 16) as usize];
    let next = mix(mix(sum, u64::from(answer.delay.0)), figure.capacity.0);
    mix(next, u64::from(figure.delay.0))
}

fn mix_path(sum: u64, path: &PathValue) -> u64 {
    let linked = path.operators[15];
    let next = mix(mix(sum, path.count as u64), u64::from(path.wanted.0));
    let declared = mix_declaration(next, &path.declaration);
    mix_operator(mix(declared, u64::from(linked.link.0)), linked.operator)
}

fn mix_declaration(sum: u64, declaration: &Declaration) -> u64 {
    match declaration.kind {
        Kind::Smooth => mix_pair(mix(sum, 0), declaration.interval.0, declaration.quota.0),
        Kind::Uniform => mix_pair(mix(sum, 1), declaration.interval.0, declaration.quota.0),
        Kind::Rows => {
            let next = mix(mix(sum, 2), declaration.count as u64);
            declaration.rows.iter().fold(next, mix_row)
        }
    }
}

fn mix_row(sum: u64, row: &DeclaredRow) -> u64 {
    mix_pair(sum, row.interval.0, row.quota.0)
}

fn mix_operator(sum: u64, operator: Operator) -> u64 {
    let (kind, number) = kind_and_number(operator);
    mix_pair(sum, u32::from(kind), number)
}

fn mix_length(sum: u64, length: &usize) -> u64 {
    mix(sum, *length as u64)
}

fn mix_byte(sum: u64, bytes: &[u8], at: usize) -> u64 {
    match bytes.get(at) {
        Some(byte) => mix(sum, u64::from(*byte)),
        None => sum,
    }
}
