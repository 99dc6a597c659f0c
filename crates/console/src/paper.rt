// The page of a sheet (document 02, item 4), or the refusal.

use crate::print::{refused, text};
use page::page;
use std::io;
use std::io::Write;

pub fn print_page<W: Write>(out: &mut W, sheet: &[u8]) -> io::Result<()> {
    let mut lent = [0u8; 1037];
    match page(sheet, &mut lent) {
        Ok(length) => text(out, &lent[..length]),
        Err(why) => refused(out, why),
    }
}
