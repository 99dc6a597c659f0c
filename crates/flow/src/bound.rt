// A part, for the crate that works out figures: the most that several rows allow in n slots, for each n at once (document 02, item 6).
// Worked out row by row from the last; the number of rows left falls at each call.

ghost use Rattle.std.specs.Prelude.{◌≡◌, ℕ, [], ◌∷◌, suc, ◌+◌, ◌-◌, ◌*◌, ◌≤◌, ◌<◌, min, length, get_or};
ghost use Rattle.quantity.specs.Sums.{list_of};
ghost use Rattle.flow.specs.Rows.{rows_most};
ghost use Rattle.flow.specs.Declarations.{empty_row, row_of};
ghost use Rattle.flow.specs.Bounds.{largest_signed, boundable, bound_filled, pair_at, RowsInside, RowWithin, Sized, Table, with_row, Stepped, Remade, Lowers, lowered};

use crate::{Declaration, DeclaredRow};

// The entries of a table, at least and at the most: the most in 0 to 1,024 slots, and in 0 to 1,984. That is as far as figures ask.
pub const SHORTEST: usize = 1025;

pub const LENGTH: usize = 1985;

// Fills a table with the bound of the declaration's rows. Where it has none, or one out of its range, or the table is shorter or longer, it answers so and writes nothing.
// Yes or no: there is no value but the table, which is lent.
pub fn fill(declaration: Declaration, table: &mut [u32]) -> bool
    ensures { (result ≡ boundable declaration table.old) × (table.new ≡ bound_filled declaration table.old) }
{
    if !(SHORTEST..=LENGTH).contains(&table.len())
        || !declaration.kind.has_rows()
        || !declaration.in_range()
    {
        return false;
    }
    let rows = declaration.rows;
    fill_rows(table, pairs(rows), declaration.count);
    true
}

// The rows as an array of arrays by value, beside their count (document 01 names the form): four pairs of interval and quota.
fn pairs(rows: [DeclaredRow; 4]) -> [[u32; 2]; 4]
    ensures { (i : ℕ) → i < 4 → pair_at result i ≡ row_of (get_or rows i empty_row) }
{
    rows.map(pair)
}

fn pair(row: DeclaredRow) -> [u32; 2]
    ensures { result ≡ row.interval.0 ∷ row.quota.0 ∷ [] }
{
    [row.interval.0, row.quota.0]
}

// With one row left entry n is ⌈n/m⌉·Q; else the same of one row less, and then the last of them is used or not.
fn fill_rows(table: &mut [u32], rows: [[u32; 2]; 4], left: usize)
    requires { Sized table.old × (1 ≤ left) × (left ≤ 4) × RowsInside (pair_at rows) left }
    ensures { table.new ≡ list_of (rows_most (pair_at rows) left) (length table.old) }
{
    let last = left - 1;
    if last == 0 {
        first_row(table, rows);
        return;
    }
    fill_rows(table, rows, last);
    next_row(table, rows, last);
}

// The first row alone: its quota for each interval begun.
fn first_row(table: &mut [u32], rows: [[u32; 2]; 4])
    requires { Sized table.old × RowsInside (pair_at rows) 1 }
    ensures { table.new ≡ list_of (rows_most (pair_at rows) 1) (length table.old) }
{
    let interval = rows[0][0] as usize;
    let quota = rows[0][1];
    table[0] = 0;
    row_alone(table, interval, quota);
}

// The interval goes as a number of its own, not in a row: here and in `with_row` short ones are constants.
// An interval of up to four slots is given as a constant, so that its entries are stored at once.
fn row_alone(table: &mut [u32], interval: usize, quota: u32)
    requires { Sized table.old × (get_or table.old 0 0 ≡ 0) × RowWithin interval quota }
    ensures { Stepped interval quota table.new (length table.new) }
{
    match interval {
        1 => each_interval(table, 1, quota),
        2 => each_interval(table, 2, quota),
        3 => each_interval(table, 3, quota),
        4 => each_interval(table, 4, quota),
        _ => each_interval(table, interval, quota),
    }
}

// A quota more in each interval. A block goes by its place: of what is written through `chunks_mut` a proof knows no element.
fn each_interval(table: &mut [u32], interval: usize, quota: u32)
    requires { Sized table.old × (get_or table.old 0 0 ≡ 0) × RowWithin interval quota }
    ensures { Stepped interval quota table.new (length table.new) }
{
    let length = table.len();
    let mut most = quota;
    let mut from = 1;
    while from + interval <= length {
        level(table, from, from + interval, most);
        most += quota;
        from += interval;
    }
    level(table, from, length, most);
}

// The same in the slots of a block.
fn level(table: &mut [u32], from: usize, end: usize, most: u32)
    requires { (from ≤ end) × (end ≤ length table.old) }
    ensures { Remade table.old table.new from end (λ j. most) }
{
    table[from..end].fill(most);
}

// One row more: it is not used in n slots, or once more than in those that its interval leaves.
fn next_row(table: &mut [u32], rows: [[u32; 2]; 4], last: usize)
    requires { Sized table.old × (1 ≤ last) × (last < 4) × RowsInside (pair_at rows) (suc last) × (table.old ≡ list_of (rows_most (pair_at rows) last) (length table.old)) }
    ensures { table.new ≡ list_of (rows_most (pair_at rows) (suc last)) (length table.old) }
{
    let interval = rows[last][0] as usize;
    let quota = rows[last][1];
    with_row(table, interval, quota);
}

// Numbers below 2^31 have the same order as signed ones, which plain x86-64 compares four at once.
fn smaller(a: u32, b: u32) -> u32
    requires { (a ≤ largest_signed) × (b ≤ largest_signed) }
    ensures { result ≡ min a b }
{
    if a as i32 <= b as i32 { a } else { b }
}

// A short interval is given as a constant, so that the entries of the last interval stay in registers.
fn with_row(table: &mut [u32], interval: usize, quota: u32)
    requires { Table table.old × RowWithin interval quota }
    ensures { table.new ≡ with_row interval quota table.old }
{
    if 15 < interval {
        long_row(table, interval, quota);
        return;
    }
    match interval {
        2 => short_row(table, 2, quota),
        3 => short_row(table, 3, quota),
        4 => short_row(table, 4, quota),
        5 => short_row(table, 5, quota),
        6 => short_row(table, 6, quota),
        7 => short_row(table, 7, quota),
        8 => short_row(table, 8, quota),
        9 => short_row(table, 9, quota),
        10 => short_row(table, 10, quota),
        11 => short_row(table, 11, quota),
        12 => short_row(table, 12, quota),
        13 => short_row(table, 13, quota),
        14 => short_row(table, 14, quota),
        15 => short_row(table, 15, quota),
        _ => short_row(table, interval, quota),
    }
}

// An interval's entries at a time, by their place, as in `each_interval`.
fn short_row(table: &mut [u32], interval: usize, quota: u32)
    requires { Table table.old × (interval ≤ 15) × RowWithin interval quota }
    ensures { table.new ≡ with_row interval quota table.old }
{
    let length = table.len();
    let mut last = [0; 15];
    let mut from = 1;
    while from + interval <= length {
        row_interval(table, &mut last, from, interval, quota);
        from += interval;
    }
    row_block(table, from, length, interval, quota);
}

// The slots of one interval, by the entries of the one before. By the index: tried over two zipped `iter_mut`, what the table holds behind them did not prove.
fn row_interval(table: &mut [u32], last: &mut [u32; 15], from: usize, interval: usize, quota: u32)
    requires { (interval ≤ 15) × (length last.old ≡ 15) × (from + interval ≤ length table.old) × ((k : ℕ) → k < interval → (get_or table.old (from + k) 0 ≤ largest_signed) × (quota + get_or last.old k 0 ≤ largest_signed)) }
    ensures { Remade table.old table.new from (from + interval) (λ j. min (get_or table.old j 0) (quota + get_or last.old (j - from) 0)) × ((k : ℕ) → k < interval → get_or last.new k 0 ≡ get_or table.new (from + k) 0) × (length last.new ≡ 15) }
{
    for k in 0..interval {
        let most = smaller(table[from + k], quota + last[k]);
        table[from + k] = most;
        last[k] = most;
    }
}

// The first interval's slots: the row is not used, or once. Then eight entries at a time.
fn long_row(table: &mut [u32], interval: usize, quota: u32)
    requires { Table table.old × (8 ≤ interval) × RowWithin interval quota }
    ensures { table.new ≡ with_row interval quota table.old }
{
    let length = table.len();
    let mut from = interval + 1;
    row_start(table, from, quota);
    // By the place: each block reads entries before it, so it cannot be lent as a chunk.
    while from + 8 <= length {
        row_four(table, from, interval, quota);
        row_four(table, from + 4, interval, quota);
        from += 8;
    }
    row_block(table, from, length, interval, quota);
}

// One row more in an interval's slots or fewer: it is not used, or once. By the index: over `iter_mut` a table with long rows takes an eighth longer.
fn row_start(table: &mut [u32], end: usize, quota: u32)
    requires { (1 ≤ end) × (end ≤ length table.old) × (quota ≤ largest_signed) × ((j : ℕ) → j < end → get_or table.old j 0 ≤ largest_signed) }
    ensures { Remade table.old table.new 1 end (λ j. min (get_or table.old j 0) quota) }
{
    for n in 1..end {
        table[n] = smaller(table[n], quota);
    }
}

// An entry with one row more: it is not used, or once more than in the slots that its interval leaves.
fn lower(table: &[u32], n: usize, interval: usize, quota: u32) -> u32
    requires { (interval ≤ n) × (n < length table.now) × (get_or table.now n 0 ≤ largest_signed) × (quota + get_or table.now (n - interval) 0 ≤ largest_signed) }
    ensures { result ≡ lowered table.now interval quota n }
{
    smaller(table[n], quota + table[n - interval])
}

// Four entries at once: all are read before any is stored. Through `array::from_fn` and `copy_from_slice` a table with long rows takes half as long again.
fn row_four(table: &mut [u32], from: usize, interval: usize, quota: u32)
    requires { (4 ≤ interval) × Lowers table.old from (from + 4) interval quota }
    ensures { Remade table.old table.new from (from + 4) (lowered table.old interval quota) }
{
    let first = lower(table, from, interval, quota);
    let second = lower(table, from + 1, interval, quota);
    let third = lower(table, from + 2, interval, quota);
    let fourth = lower(table, from + 3, interval, quota);
    table[from] = first;
    table[from + 1] = second;
    table[from + 2] = third;
    table[from + 3] = fourth;
}

// One row more in the slots of a block, which is no longer than the interval: the entries that it reads are before the block.
// By the place: what is read and what is written are of one table.
fn row_block(table: &mut [u32], from: usize, end: usize, interval: usize, quota: u32)
    requires { (end ≤ from + interval) × Lowers table.old from end interval quota }
    ensures { Remade table.old table.new from end (lowered table.old interval quota) }
{
    for n in from..end {
        table[n] = lower(table, n, interval, quota);
    }
}
