// The reader of a sheet (document 01, sections 5 and 7).

ghost use Rattle.std.specs.Prelude.{◌≡◌, true, false, not, ◌++◌, ◌+◌, ◌*◌, ◌≤◌, ◌<◌, min, max, length, get_or, leb, eqb, MatchResult};
ghost use Rattle.quantity.specs.Choice.{pick, both};
ghost use Rattle.quantity.specs.Rounding.{round_up};
ghost use Rattle.quantity.specs.Ranges.{checked_wanted_delay};
ghost use Rattle.quantity.specs.Refusals.{first_of};
ghost use Rattle.operator.specs.Operators.{number_in_range};
ghost use Rattle.flow.specs.Declarations.{row_of, row_in_range};
ghost use Rattle.sheet.specs.Numbers.{value_of_bytes};
ghost use Rattle.sheet.specs.Bodies.{part, declaration_in, declaration_fits, row_in, rows_in, rows_fit, wanted_in, operator_of, operator_in, operator_fits};
ghost use Rattle.sheet.specs.Fields.{field_unexpected, header_judged, IsHanded};
ghost use Rattle.sheet.specs.Sheets.{in_rows_form, rows_given, first_answer, head_answer, further_cases, read_house, read_sheet};

use crate::profile::{hop_length, house_operator, read_house};
use crate::{
    DECLARATION, DECLARATION_AT, Form, Format, HEADER, HOUSE, HOUSE_AT, LinkedOperator, OPERATOR,
    PathValue, ROW_WIDTH, ROWS_TAG, WANTED,
};
use flow::{Declaration, DeclaredRow, Kind};
use operator::Operator;
use quantity::refusal::Refusal;
use quantity::{Delay, Interval, Link, Quantity, Quota, Rate, WantedDelay};

// What the first field declares, and the byte behind it.
#[derive(Clone, Copy)]
struct First {
    declaration: Declaration,
    end: usize,
}

// What a sheet says before its operators, and where these begin.
#[derive(Clone, Copy)]
struct Head {
    declaration: Declaration,
    wanted: WantedDelay,
    end: usize,
}

// The number in `width` bytes from `at` on, the high byte first.
pub(crate) fn number_at(bytes: &[u8], at: usize, width: usize) -> u32
    requires { (width ≤ 4) × (at + width ≤ length bytes.now) }
    ensures { result ≡ value_of_bytes (part at width bytes.now) }
{
    let mut value = 0;
    for byte in &bytes[at..at + width] {
        value = value * 256 + u32::from(*byte);
    }
    value
}

// The whole sheet and a place go together, and no part of it: a refusal names the place in the sheet.
impl Format {
    // Whether the field that begins at a byte is of this format.
    #[tactic(auto, unfolding(crate::specs::Fields::field_unexpected))]
    fn is_due(self, sheet: &[u8], at: usize) -> bool
        requires { at + 3 ≤ length sheet.now }
        ensures { not result ≡ field_unexpected sheet.now at (record { tag = self.tag; width = self.width; fits = λ body. true }) }
    {
        sheet[at] == self.tag && number_at(sheet, at + 1, 2) as usize == self.width
    }

    // Section 7's 2 to 4 of a field of which the sheet has not every byte.
    #[tactic(auto, unfolding(crate::specs::Fields::field_missing, crate::specs::Fields::header_cut_off, crate::specs::Fields::body_cut_off))]
    fn cut_off(self, sheet: &[u8], at: usize) -> Refusal
        requires { length sheet.now < at + 3 + self.width }
        ensures { header_judged sheet.now at self.tag self.width ≡ Err result }
    {
        if sheet.len() <= at {
            return Refusal::FieldUnexpected(at);
        }
        let left = sheet.len() - at;
        if left < HEADER {
            return Refusal::HeaderCutOff(at);
        }
        let due = self.is_due(sheet, at);
        if !due {
            return Refusal::FieldUnexpected(at);
        }
        Refusal::BodyCutOff(at)
    }

    // Section 7's 2 to 4 of the field that is due at a byte, whichever it is, and else its body. Where the sheet has all its bytes, the header decides alone.
    #[tactic(auto, unfolding(crate::specs::Fields::field_missing, crate::specs::Fields::header_cut_off, crate::specs::Fields::body_cut_off, crate::specs::Fields::body_out_of_range))]
    fn body(self, sheet: &[u8], at: usize) -> Result<&[u8], Refusal>
        requires { at + self.width ≤ 256 }
        ensures { MatchResult result (λ body. IsHanded sheet.now at self.tag self.width body.now) (λ why. header_judged sheet.now at self.tag self.width ≡ Err why) }
    {
        let end = self.end(at);
        if sheet.len() < end {
            return Err(self.cut_off(sheet, at));
        }
        if !self.is_due(sheet, at) {
            return Err(Refusal::FieldUnexpected(at));
        }
        Ok(&sheet[at + HEADER..end])
    }
}

// The kinds are bytes of the sheet (section 5).
fn kind_of(byte: u8) -> Kind
    ensures { result ≡ pick (eqb byte 0) Kind.Smooth Kind.Uniform }
{
    if byte == 0 {
        Kind::Smooth
    } else {
        Kind::Uniform
    }
}

#[tactic(auto, using(crate::proofs::RowsRead::one_row), unfolding(crate::specs::Bodies::declaration_in, quantity::specs::Ranges::checked_in))]
fn read_declaration(body: &[u8]) -> Option<Declaration>
    requires { length body.now ≡ 7 }
    ensures { result ≡ pick (declaration_fits body.now) (Some (declaration_in body.now)) None }
{
    let kind = body[0];
    if 1 < kind {
        return None;
    }
    let interval = Interval::checked(number_at(body, 1, 2))?;
    let quota = Quota::checked(number_at(body, 3, 4))?;
    Some(Declaration::of_one_row(kind_of(kind), interval, quota))
}

// Row i of a body.
#[tactic(auto, unfolding(crate::specs::Bodies::row_in, flow::specs::Declarations::row_in_range, quantity::specs::Ranges::checked_in))]
fn read_row(body: &[u8], i: usize) -> Option<DeclaredRow>
    requires { (i ≤ 3) × (i * 6 + 6 ≤ length body.now) }
    ensures { result ≡ pick (row_in_range (row_of (row_in body.now i))) (Some (row_in body.now i)) None }
{
    let at = i * ROW_WIDTH;
    let interval = Interval::checked(number_at(body, at, 2))?;
    let quota = Quota::checked(number_at(body, at + 2, 4))?;
    Some(DeclaredRow { interval, quota })
}

// So many rows; behind them the declaration's rows are empty.
// By number: tried with iter_mut zipped with chunks_exact, whose loop has no list of the rows so far for the invariant to name.
fn read_rows(body: &[u8], count: usize) -> Option<Declaration>
    requires { (2 ≤ count) × (count ≤ 4) × (length body.now ≡ count * 6) }
    ensures { result ≡ pick (rows_fit count body.now) (Some (rows_in count body.now)) None }
{
    let mut rows = [DeclaredRow::CLEAR; 4];
    for k in 0..count {
        rows[k] = read_row(body, k)?;
    }
    Some(Declaration::of_rows(count, rows))
}

#[tactic(auto, unfolding(crate::specs::Bodies::wanted_in))]
fn read_wanted(body: &[u8]) -> Option<WantedDelay>
    requires { length body.now ≡ 4 }
    ensures { result ≡ checked_wanted_delay (wanted_in body.now) }
{
    WantedDelay::checked(number_at(body, 0, 4))
}

// The operator of a kind, whose number is a rate, an interval or a delay.
#[tactic(auto, unfolding(crate::specs::Bodies::operator_of, operator::specs::Operators::number_in_range, quantity::specs::Ranges::checked_in))]
fn read_operator(kind: u8, number: u32) -> Option<Operator>
    ensures { result ≡ pick (both (leb kind 4) (number_in_range (operator_of kind number))) (Some (operator_of kind number)) None }
{
    match kind {
        0 => Some(Operator::Limiter(Rate::checked(number)?)),
        1 => Some(Operator::Compactor(Interval::checked(number)?)),
        2 => Some(Operator::Expander(Interval::checked(number)?)),
        3 => Some(Operator::Filter(Rate::checked(number)?)),
        4 => Some(Operator::Delayer(Delay::checked(number)?)),
        _ => None,
    }
}

#[tactic(auto, unfolding(crate::specs::Bodies::operator_in, crate::specs::Bodies::operator_in_range, crate::specs::Bodies::operator_fits, quantity::specs::Ranges::checked_in))]
fn read_linked(body: &[u8]) -> Option<LinkedOperator>
    requires { length body.now ≡ 6 }
    ensures { result ≡ pick (operator_fits body.now) (Some (operator_in body.now)) None }
{
    let operator = read_operator(body[0], number_at(body, 2, 4))?;
    let link = Link::checked(u32::from(body[1]))?;
    Some(LinkedOperator { operator, link })
}

// Whether the first field has this tag; a sheet of no byte has none.
fn begins_with(sheet: &[u8], tag: u8) -> bool
    requires { 1 ≤ tag }
    ensures { result ≡ eqb (get_or sheet.now 0 0) tag }
{
    sheet.first() == Some(&tag)
}

// A field 01.
fn read_one_row(sheet: &[u8]) -> Result<First, Refusal>
    requires { in_rows_form sheet.now ≡ false }
    ensures { result ≡ first_answer sheet.now }
{
    let at = DECLARATION_AT;
    let body = DECLARATION.body(sheet, at)?;
    let declaration = read_declaration(body).ok_or(Refusal::OutOfRange(at))?;
    Ok(First {
        declaration,
        end: DECLARATION.end(at),
    })
}

// How many rows the body of a field 05 has: by its length four, three or two.
// Two stands for any other length too: the body's own test refuses it.
#[tactic(auto, unfolding(crate::specs::Sheets::rows_given))]
fn rows_given(sheet: &[u8]) -> usize
    requires { 3 ≤ length sheet.now }
    ensures { result ≡ rows_given sheet.now }
{
    let width = number_at(sheet, DECLARATION_AT + 1, 2) as usize;
    if width == 4 * ROW_WIDTH {
        return 4;
    }
    if width == 3 * ROW_WIDTH {
        return 3;
    }
    2
}

// A field 05. Its rows are in order too (15).
fn read_several_rows(sheet: &[u8]) -> Result<First, Refusal>
    requires { in_rows_form sheet.now ≡ true }
    ensures { result ≡ first_answer sheet.now }
{
    let at = DECLARATION_AT;
    if sheet.len() < HEADER {
        return Err(Refusal::HeaderCutOff(at));
    }
    let count = rows_given(sheet);
    let format = Format::of_rows(count);
    let body = format.body(sheet, at)?;
    let declaration = read_rows(body, count).ok_or(Refusal::OutOfRange(at))?;
    if !declaration.in_order() {
        return Err(Refusal::RowsOutOfOrder(at));
    }
    Ok(First {
        declaration,
        end: format.end(at),
    })
}

// The declaration, in either field.
fn read_first(sheet: &[u8]) -> Result<First, Refusal>
    ensures { result ≡ first_answer sheet.now }
{
    if begins_with(sheet, ROWS_TAG) {
        return read_several_rows(sheet);
    }
    read_one_row(sheet)
}

// The first two fields.
fn read_head(sheet: &[u8]) -> Result<Head, Refusal>
    ensures { result ≡ head_answer sheet.now }
{
    let first = read_first(sheet)?;
    let at = first.end;
    let body = WANTED.body(sheet, at)?;
    let wanted = read_wanted(body).ok_or(Refusal::OutOfRange(at))?;
    Ok(Head {
        declaration: first.declaration,
        wanted,
        end: WANTED.end(at),
    })
}

// Behind the last operator the sheet ends, or a seventeenth begins, which is refused (section 7, 2 and 3).
#[tactic(auto, unfolding(crate::specs::Sheets::further_cases, crate::specs::Fields::header_cut_off))]
fn ended(sheet: &[u8], at: usize) -> Result<(), Refusal>
    requires { at ≤ length sheet.now }
    ensures { result ≡ first_of (further_cases 0 at sheet.now) Err (Ok tt) }
{
    let left = sheet.len() - at;
    if left == 0 {
        return Ok(());
    }
    if left < HEADER {
        return Err(Refusal::HeaderCutOff(at));
    }
    Err(Refusal::FieldUnexpected(at))
}

// How many operators are due in so many bytes: as many as begin, 9 bytes to each, but one at the least and 16 at the most.
#[tactic(auto, unfolding(quantity::specs::Rounding::round_up))]
fn operators_due(bytes: usize) -> usize
    ensures { result ≡ max 1 (min (round_up bytes 9) 16) }
{
    bytes.div_ceil(HEADER + OPERATOR.width).clamp(1, 16)
}

// One field 04, and behind it the sheet ends. The path that its nine numbers stand for: smooth (m, Q), and the operators hop by hop.
fn read_profile(sheet: &[u8]) -> Result<PathValue, Refusal>
    ensures { result ≡ read_house sheet.now }
{
    let at = HOUSE_AT;
    let body = HOUSE.body(sheet, at)?;
    let house = read_house(body).ok_or(Refusal::OutOfRange(at))?;
    ended(sheet, HOUSE.end(at))?;
    let count = (house.hops.0 as usize) * hop_length(house);
    let mut operators = [LinkedOperator::NONE; 16];
    // By number: an operator's hop and link are found by it.
    for k in 0..count {
        operators[k] = house_operator(house, k);
    }
    Ok(PathValue {
        form: Form::House(house),
        declaration: Declaration::of_one_row(Kind::Smooth, house.interval, house.quota),
        wanted: house.wanted,
        count,
        operators,
    })
}

// One field 04, or fields 01 or 05, 02 and 03. Behind each operator the sheet may end; how many are due is counted first, so that a turn has one test less.
pub fn read(sheet: &[u8]) -> Result<PathValue, Refusal>
    ensures { result ≡ read_sheet sheet.now }
{
    if begins_with(sheet, HOUSE.tag) {
        return read_profile(sheet);
    }
    let head = read_head(sheet)?;
    let mut at = head.end;
    let count = operators_due(sheet.len() - at);
    let mut operators = [LinkedOperator::NONE; 16];
    // By number: each is a place in the array and one in the sheet.
    for k in 0..count {
        let body = OPERATOR.body(sheet, at)?;
        operators[k] = read_linked(body).ok_or(Refusal::OutOfRange(at))?;
        at = OPERATOR.end(at);
    }
    ended(sheet, at)?;
    Ok(PathValue {
        form: Form::Fields,
        declaration: head.declaration,
        wanted: head.wanted,
        count,
        operators,
    })
}
