// What a source may send (document 01, sections 1 and 2; document 02, item 6).

#![tactic(auto)]

ghost use Rattle.std.specs.Prelude.{◌≡◌, ◌-◌, fold, true, ◌&&◌, ◌||◌, leb, ltb, zip, drop, take};
ghost use Rattle.std.specs.List.{enumerate_from};
ghost use Rattle.flow.specs.Declarations.{has_rows, row_of, row_in_range, rises, row_clear, only_row, last_row, of_one_row, declaration_in_range, rows_in_order, unused_clear};

use quantity::{Interval, Quantity, Quota};

pub mod bound;

// Section 2's two classes of flows, and several rows, all of them binding.
#[derive(Clone, Copy)]
pub enum Kind {
    Smooth,
    Uniform,
    Rows,
}

// A row: at most so many units in any so many neighbouring slots.
#[derive(Clone, Copy)]
pub struct DeclaredRow {
    pub interval: Interval,
    pub quota: Quota,
}

// What a source may send: smooth or uniform by interval and quota, or by the first `count` rows (document 01 names the form; no heap).
// A record and no enum with its rows: what a kind does not use may hold anything, and refusal 1 tests it (unused_clear).
#[derive(Clone, Copy)]
pub struct Declaration {
    pub kind: Kind,
    pub interval: Interval,
    pub quota: Quota,
    pub count: usize,
    pub rows: [DeclaredRow; 4],
}

impl Kind {
    // Whether the kind is that of several rows.
    pub fn has_rows(self) -> bool
        ensures { result ≡ has_rows self }
    {
        matches!(self, Kind::Rows)
    }
}

impl DeclaredRow {
    // What stands in a row that is not used.
    pub const CLEAR: DeclaredRow = DeclaredRow {
        interval: Interval(0),
        quota: Quota(0),
    };

    // The row of two numbers, whatever they are.
    pub fn of(interval: u32, quota: u32) -> DeclaredRow
        ensures { result ≡ record { interval = record { 0 = interval }; quota = record { 0 = quota } } }
    {
        DeclaredRow {
            interval: Interval(interval),
            quota: Quota(quota),
        }
    }

    // Whether the row's interval and quota are in their ranges.
    #[tactic(auto, unfolding(crate::specs::Declarations::row_in_range))]
    pub fn in_range(self) -> bool
        ensures { result ≡ row_in_range (row_of self) }
    {
        self.interval.in_range() && self.quota.in_range()
    }

    // Whether the row is not used.
    #[tactic(auto, unfolding(crate::specs::Declarations::row_clear))]
    pub fn is_clear(self) -> bool
        ensures { result ≡ row_clear (row_of self) }
    {
        self.interval.0 == 0 && self.quota.0 == 0
    }
}

impl Declaration {
    // Smooth or uniform (m, Q), with 0 in all else.
    pub fn of_one_row(kind: Kind, interval: Interval, quota: Quota) -> Declaration
        ensures { result ≡ of_one_row kind interval.0 quota.0 }
    {
        Declaration {
            kind,
            interval,
            quota,
            count: 0,
            rows: [DeclaredRow::CLEAR; 4],
        }
    }

    // Several rows, with 0 in all else.
    pub fn of_rows(count: usize, rows: [DeclaredRow; 4]) -> Declaration
        ensures { result ≡ record { kind = Kind.Rows; interval = record { 0 = 0 }; quota = record { 0 = 0 }; count = count; rows = rows } }
    {
        Declaration {
            kind: Kind::Rows,
            interval: Interval(0),
            quota: Quota(0),
            count,
            rows,
        }
    }

    // Whether every number of the declaration is in its range: two to four rows where there are several, their intervals and quotas.
    pub fn in_range(self) -> bool
        ensures { result ≡ declaration_in_range self }
    {
        if self.kind.has_rows() {
            let several = (2 <= self.count) & (self.count <= 4);
            several && rows_in_range(self.rows, self.count)
        } else {
            self.only_row().in_range()
        }
    }

    // Whether from one row to the next the interval rises and the quota does not fall.
    pub fn in_order(self) -> bool
        ensures { result ≡ rows_in_order self }
    {
        if self.kind.has_rows() {
            self.count <= 4 && rows_rise(self.rows, self.count.saturating_sub(1))
        } else {
            true
        }
    }

    // Whether all that the declaration's kind does not use is 0.
    pub fn unused_clear(self) -> bool
        ensures { result ≡ unused_clear self }
    {
        if self.kind.has_rows() {
            self.only_row().is_clear() & rows_clear(self.rows, self.count)
        } else {
            (self.count == 0) & rows_clear(self.rows, 0)
        }
    }

    // The last row; a smooth or uniform declaration has one.
    pub fn last_row(self) -> DeclaredRow
        ensures { row_of result ≡ last_row self }
    {
        if self.kind.has_rows() {
            let last = self.count.saturating_sub(1);
            self.rows.get(last).copied().unwrap_or(DeclaredRow::CLEAR)
        } else {
            self.only_row()
        }
    }

    fn only_row(self) -> DeclaredRow
        ensures { row_of result ≡ only_row self }
    {
        DeclaredRow {
            interval: self.interval,
            quota: self.quota,
        }
    }
}

#[tactic(auto, unfolding(crate::specs::Declarations::rises))]
fn rises(row: DeclaredRow, next: DeclaredRow) -> bool
    ensures { result ≡ rises (row_of row) (row_of next) }
{
    row.interval.0 < next.interval.0 && row.quota.0 <= next.quota.0
}

// All rows are tested, so that the loops have no branch; those of a fixed number of turns are unrolled.
fn rows_in_range(rows: [DeclaredRow; 4], count: usize) -> bool
    ensures { result ≡ fold (λ fit row. fit && row_in_range (row_of row)) true (take count rows) }
{
    rows.iter()
        .take(count)
        .fold(true, |fit, row| fit & row.in_range())
}

// Whether the rows before the last rise, each to the next.
fn rows_rise(rows: [DeclaredRow; 4], last: usize) -> bool
    ensures { result ≡ fold (λ rise pair. rise && (leb last pair.0 || rises (row_of pair.1.0) (row_of pair.1.1))) true (enumerate_from 0 (zip rows (drop 1 rows))) }
{
    let next = rows.iter().skip(1);
    let pairs = rows.iter().zip(next).enumerate();
    pairs.fold(
        true,
        |rise, (i, (row, next))| rise & ((last <= i) | rises(*row, *next)),
    )
}

// Whether the rows from one on are not used.
fn rows_clear(rows: [DeclaredRow; 4], from: usize) -> bool
    ensures { result ≡ fold (λ clear at. clear && (ltb at.0 from || row_clear (row_of at.1))) true (enumerate_from 0 rows) }
{
    let places = rows.iter().enumerate();
    places.fold(
        true,
        |clear, (i, row)| clear & ((i < from) | row.is_clear()),
    )
}
