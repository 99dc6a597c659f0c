// Amounts stored in fields and in lent words: parts of the calls of the operators and of the meter, which turn their answers into refusal 1 (document 01, sections 6 and 7).

#![tactic(auto)]

ghost use Rattle.std.specs.Prelude.{◌≡◌, ◌≤◌, not, [], ◌∷◌, length, ◌==◌, nat_lt};
ghost use Rattle.quantity.specs.Choice.{any_of};
ghost use Rattle.quantity.specs.Sums.{total, every};
ghost use Rattle.quantity.specs.Limits.{largest_amount, last_slot};
ghost use Rattle.words.specs.Stored.{word_at, clear_at, stored_fits, word_noted};
ghost use Rattle.words.specs.Scanning.{scanned_of};
ghost use Rattle.words.specs.Gathering.{joined, gathered_of, gathered_with};

use quantity::{Slots, Units};

// What one pass over words gathers: the words joined by "or", and the low 32 bits of their sum.
#[derive(Clone, Copy)]
pub struct Gathered {
    pub join: u32,
    pub low: u32,
}

impl Gathered {
    // What is gathered of two parts.
    pub fn with(self, other: Gathered) -> Gathered
        ensures { result ≡ gathered_with self other }
    {
        Gathered {
            join: self.join | other.join,
            low: self.low.wrapping_add(other.low),
        }
    }
}

// The most words that are scanned at once, so that their sum fits.
const MOST_SCANNED: usize = 1024;

// The largest word of which so many sum to less than 2^32: 2^22 − 1.
pub const MOST_EXACT: u32 = 4_194_303;

// The sum of at most 1,024 words of which the first so many are used, where each fits. Every lent word is tested once.
// The used words are joined and added in one pass, those behind them only joined. Where all fit, those are 0 and add nothing; where none is used, no sum is needed.
pub fn scan(words: &[u32], used: usize) -> Option<u64>
    ensures { result ≡ scanned_of used words.now }
{
    if MOST_SCANNED < words.len() {
        return None;
    }
    if used == 0 {
        return all_clear(words).then_some(0);
    }
    let (first, rest) = words.split_at(used.min(words.len()));
    let gathered = gather(first);
    let fits = (u64::from(gathered.join) <= Units::LARGEST) & all_clear(rest);
    fits.then_some(exact_sum(first, gathered))
}

// The words of a row, which is joined without a loop.
const ROW: usize = 256;

// Whether every word is 0: the first row, and then row by row from where whole rows are left, which is within the first or behind it.
// So the other rows of words that stand behind a ring begin where those of the whole memory do, and where that begins at a multiple of 16 bytes no vector of them lies across two lines of the cache.
pub fn all_clear(words: &[u32]) -> bool
    ensures { result ≡ every (clear_at words.now) (length words.now) }
{
    if words.len() < ROW {
        return row_clear(words);
    }
    let from = (words.len() - 1) % ROW + 1;
    row_clear(&words[..ROW]) && words[from..].chunks_exact(ROW).all(row_clear)
}

// The same of few words, in one row.
pub fn row_clear(words: &[u32]) -> bool
    ensures { result ≡ every (clear_at words.now) (length words.now) }
{
    join(words) == 0
}

// The words joined by "or": 0 just where each word is 0, and at most 2^k − 1 just where each word is.
fn join(words: &[u32]) -> u32
    ensures { result ≡ joined (word_at words.now) (length words.now) }
{
    words.iter().fold(0, |join, word| join | word)
}

// The same join, and the sum of the words modulo 2^32: row by row, and then those that are left.
pub fn gather(words: &[u32]) -> Gathered
    ensures { result ≡ gathered_of words.now }
{
    let rows = words.chunks_exact(ROW);
    let rest = rows.remainder();
    let mut gathered = Gathered { join: 0, low: 0 };
    for row in rows {
        gathered = gathered.with(gather_row(row));
    }
    gathered.with(gather_row(rest))
}

// The same of few words, in one row.
fn gather_row(words: &[u32]) -> Gathered
    ensures { result ≡ gathered_of words.now }
{
    let mut join = 0;
    let mut low: u32 = 0;
    for word in words {
        join |= *word;
        low = low.wrapping_add(*word);
    }
    Gathered { join, low }
}

// The sum of the words: what was gathered where no word is so large that it could have wrapped, else they are added again.
fn exact_sum(words: &[u32], gathered: Gathered) -> u64
    requires { (length words.now ≤ 1024) × (gathered ≡ gathered_of words.now) }
    ensures { result ≡ total (word_at words.now) (length words.now) }
{
    if gathered.join <= MOST_EXACT {
        return u64::from(gathered.low);
    }
    sum(words)
}

// The sum of the words, in 64 bits.
fn sum(words: &[u32]) -> u64
    requires { length words.now ≤ 1024 }
    ensures { result ≡ total (word_at words.now) (length words.now) }
{
    words.iter().map(|word| u64::from(*word)).sum()
}

// Refusal 1, of numbers: not so many words are lent as there should be, no slot number is left, or one of two amounts is above the limit.
pub fn unfit(lent: usize, count: usize, slot: u32, first: u64, second: u64) -> bool
    ensures { result ≡ any_of (not (lent == count) ∷ nat_lt last_slot slot ∷ nat_lt largest_amount first ∷ nat_lt largest_amount second ∷ []) }
{
    lent != count || Slots::LAST < slot || Units::LARGEST < first || Units::LARGEST < second
}

// A stored amount is at most the limit; where it is not used it is 0.
pub fn stored_fits(used: bool, amount: u64) -> bool
    ensures { result ≡ stored_fits used amount }
{
    let most = if used { Units::LARGEST } else { 0 };
    amount <= most
}

// A word noted at a place. Where there is no such word, none is written. Not by get_mut: of what is written through it a proof knows no element.
pub fn note(words: &mut [u32], at: usize, word: u32)
    ensures { words.new ≡ word_noted words.old at word }
{
    if at < words.len() {
        words[at] = word;
    }
}
