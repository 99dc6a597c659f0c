// The writer of a sheet (document 01, sections 5 and 7).
// Bytes and a place go together and not as a part of the bytes: sets says of the whole what a part would have to be brought back to.

ghost use Rattle.std.specs.Prelude.{◌≡◌, true, ◌∷◌, ◌++◌, ◌+◌, ◌≤◌, length};
ghost use Rattle.std.specs.List.{list_all};
ghost use Rattle.std.proofs.lemmas.List.Edits.{sets};
ghost use Rattle.flow.specs.Declarations.{declaration_in_range};
ghost use Rattle.sheet.specs.Numbers.{bytes_of};
ghost use Rattle.sheet.specs.Bodies.{row_bodies, pair_body, declaration_tag, declaration_body, wanted_body, operator_body, operator_in_range};
ghost use Rattle.sheet.specs.Fields.{field_of};
ghost use Rattle.sheet.specs.Sheets.{declaration_at, operator_fields, operators_in_range, write_answer, bytes_written};

use crate::profile::{in_range, write_house};
use crate::{
    DECLARATION, DECLARATION_AT, Form, Format, HEADER, HOUSE, HOUSE_AT, House, LinkedOperator,
    OPERATOR, PathValue, ROW_WIDTH, WANTED, kind_and_number,
};
use flow::{Declaration, DeclaredRow, Kind};
use quantity::refusal::Refusal;
use quantity::{Quantity, WantedDelay};

// A number in `width` bytes from `at` on, the high byte first: the last of its four bytes.
pub(crate) fn write_number(sheet: &mut [u8], at: usize, width: usize, value: u32)
    requires { (width ≤ 4) × (at + width ≤ length sheet.old) }
    ensures { sheet.new ≡ sets sheet.old at (bytes_of width value) }
{
    let bytes = value.to_be_bytes();
    sheet[at..at + width].copy_from_slice(&bytes[4 - width..]);
}

impl Format {
    pub(crate) fn write_header(self, sheet: &mut [u8], at: usize)
        requires { (at + 3 ≤ length sheet.old) × (self.width ≤ 256) }
        ensures { sheet.new ≡ sets sheet.old at (self.tag ∷ bytes_of 2 self.width) }
    {
        sheet[at] = self.tag;
        write_number(sheet, at + 1, 2, self.width as u32);
    }
}

// A field 01. The kinds are bytes of the sheet (section 5).
fn write_one_row(sheet: &mut [u8], kind: u8, declaration: Declaration)
    requires { 10 ≤ length sheet.old }
    ensures { sheet.new ≡ sets sheet.old declaration_at (field_of 0x01 (pair_body kind declaration)) }
{
    DECLARATION.write_header(sheet, DECLARATION_AT);
    sheet[3] = kind;
    write_number(sheet, 4, 2, declaration.interval.0);
    write_number(sheet, 6, 4, declaration.quota.0);
}

fn write_row(sheet: &mut [u8], at: usize, row: DeclaredRow)
    requires { at + 6 ≤ length sheet.old }
    ensures { sheet.new ≡ sets sheet.old at (bytes_of 2 row.interval.0 ++ bytes_of 4 row.quota.0) }
{
    write_number(sheet, at, 2, row.interval.0);
    write_number(sheet, at + 2, 4, row.quota.0);
}

// A field 05.
fn write_rows(sheet: &mut [u8], declaration: Declaration)
    requires { (declaration.count ≤ 4) × (27 ≤ length sheet.old) }
    ensures { sheet.new ≡ sets sheet.old declaration_at (field_of 0x05 (row_bodies declaration declaration.count)) }
{
    let count = declaration.count;
    Format::of_rows(count).write_header(sheet, DECLARATION_AT);
    // The place is counted: the clause says of the whole sheet what is written (sets), and a part lent by chunks_mut has no clause of it.
    let mut at = DECLARATION_AT + HEADER;
    for row in &declaration.rows[..count] {
        write_row(sheet, at, *row);
        at += ROW_WIDTH;
    }
}

// Where the field behind the declaration's begins.
fn wanted_at(declaration: Declaration) -> usize
    requires { declaration_in_range declaration ≡ true }
    ensures { result ≡ length (field_of (declaration_tag declaration) (declaration_body declaration)) }
{
    match declaration.kind {
        Kind::Smooth | Kind::Uniform => DECLARATION.end(DECLARATION_AT),
        Kind::Rows => Format::of_rows(declaration.count).end(DECLARATION_AT),
    }
}

fn write_declaration(sheet: &mut [u8], declaration: Declaration)
    requires { (declaration_in_range declaration ≡ true) × (27 ≤ length sheet.old) }
    ensures { sheet.new ≡ sets sheet.old declaration_at (field_of (declaration_tag declaration) (declaration_body declaration)) }
{
    match declaration.kind {
        Kind::Smooth => write_one_row(sheet, 0, declaration),
        Kind::Uniform => write_one_row(sheet, 1, declaration),
        Kind::Rows => write_rows(sheet, declaration),
    }
}

fn write_wanted(sheet: &mut [u8], at: usize, wanted: WantedDelay)
    requires { at + 7 ≤ length sheet.old }
    ensures { sheet.new ≡ sets sheet.old at (field_of 0x02 (wanted_body wanted.0)) }
{
    WANTED.write_header(sheet, at);
    write_number(sheet, at + HEADER, WANTED.width, wanted.0);
}

// The number is written first, so that its bytes become one store.
fn write_linked(sheet: &mut [u8], at: usize, linked: LinkedOperator)
    requires { (operator_in_range linked ≡ true) × (at + 9 ≤ length sheet.old) }
    ensures { sheet.new ≡ sets sheet.old at (field_of 0x03 (operator_body linked)) }
{
    let (kind, number) = kind_and_number(linked.operator);
    write_number(sheet, at + 5, 4, number);
    OPERATOR.write_header(sheet, at);
    sheet[at + 3] = kind;
    sheet[at + 4] = linked.link.0 as u8;
}

fn operators_in_range(operators: &[LinkedOperator]) -> bool
    ensures { result ≡ list_all (λ linked. operator_in_range linked) operators.now }
{
    operators
        .iter()
        .all(|linked| crate::operator_in_range(*linked))
}

// The operators from a byte on, one behind the other: where the last one ends.
fn write_operators(sheet: &mut [u8; 256], from: usize, operators: &[LinkedOperator]) -> usize
    requires { (operators_in_range operators.now ≡ true) × (length operators.now ≤ 16) × (from ≤ 34) }
    ensures { (result ≡ from + length (operator_fields operators.now)) × (sheet.new ≡ sets sheet.old from (operator_fields operators.now)) }
{
    let mut at = from;
    for linked in operators {
        write_linked(sheet, at, *linked);
        at += HEADER + OPERATOR.width;
    }
    at
}

// Fields 01 or 05, 02 and 03. All are tested before the first byte is written.
fn write_fields(path: PathValue, sheet: &mut [u8; 256]) -> Result<usize, Refusal>
    requires { path.form ≡ Form.Fields }
    ensures { (result ≡ write_answer path sheet.old) × (sheet.new ≡ bytes_written path sheet.old) }
{
    let count = path.count;
    if count == 0 || 16 < count {
        return Err(Refusal::FieldUnexpected(0));
    }
    let declaration = path.declaration;
    let operators = &path.operators[..count];
    if !declaration.in_range() {
        return Err(Refusal::OutOfRange(0));
    }
    if !declaration.in_order() {
        return Err(Refusal::RowsOutOfOrder(0));
    }
    if !path.wanted.in_range() || !operators_in_range(operators) {
        return Err(Refusal::OutOfRange(0));
    }
    let at = wanted_at(declaration);
    let end = write_operators(sheet, WANTED.end(at), operators);
    write_declaration(sheet, declaration);
    write_wanted(sheet, at, path.wanted);
    Ok(end)
}

// One field 04.
fn write_profile(sheet: &mut [u8; 256], house: House) -> Result<usize, Refusal>
    ensures { (path : PathValue) → path.form ≡ Form.House house → (result ≡ write_answer path sheet.old) × (sheet.new ≡ bytes_written path sheet.old) }
{
    if !in_range(house) {
        return Err(Refusal::OutOfRange(0));
    }
    write_house(sheet, house);
    Ok(HOUSE.end(HOUSE_AT))
}

pub fn write(path: PathValue, sheet: &mut [u8]) -> Result<usize, Refusal>
    ensures { (result ≡ write_answer path sheet.old) × (sheet.new ≡ bytes_written path sheet.old) }
{
    let Some(sheet) = sheet.as_mut_array::<256>() else {
        return Err(Refusal::Unusable);
    };
    let form = path.form;
    match form {
        Form::Fields => write_fields(path, sheet),
        Form::House(house) => write_profile(sheet, house),
    }
}
