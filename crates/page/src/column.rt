// What stands in the columns of a line: characters from the left, digits from the right (document 02, item 4).

ghost use Rattle.std.specs.Prelude.{◌≡◌, ◌+◌, ◌-◌, ◌≤◌, length, replicate};
ghost use Rattle.std.proofs.lemmas.List.Edits.{sets};
ghost use Rattle.text.specs.Rows.{space};
ghost use Rattle.page.specs.Columns.{digit, decimal};

const SPACE: u8 = b' ';

const ZERO: u8 = b'0';

// The bytes and a place go to each function here, and not a part of the bytes: `sets` says of the whole page what a part would have to be brought back to.

// The sixty characters of a line, all spaces.
pub(crate) fn put_spaces(lent: &mut [u8], at: usize)
    requires { at + 60 ≤ length lent.old }
    ensures { lent.new ≡ sets lent.old at (replicate 60 space) }
{
    lent[at..at + 60].fill(SPACE);
}

pub(crate) fn put_characters(lent: &mut [u8], at: usize, characters: &[u8])
    requires { at + length characters.now ≤ length lent.old }
    ensures { lent.new ≡ sets lent.old at characters.now }
{
    lent[at..at + characters.len()].copy_from_slice(characters);
}

fn digit_of(value: u64) -> u8
    requires { value ≤ 9 }
    ensures { result ≡ digit value }
{
    ZERO + (value as u8)
}

// From the last digit, in place: the library's text begins at the first, and its length is not known (no heap).
// How many there are shows only where none is left, so that no range counts them.
pub(crate) fn put_digits(lent: &mut [u8], end: usize, value: u64)
    requires { (length (decimal value) ≤ end) × (end ≤ length lent.old) }
    ensures { lent.new ≡ sets lent.old (end - length (decimal value)) (decimal value) }
{
    let mut left = value;
    let mut at = end - 1;
    while 10 <= left {
        lent[at] = digit_of(left % 10);
        left /= 10;
        at -= 1;
    }
    lent[at] = digit_of(left);
}
