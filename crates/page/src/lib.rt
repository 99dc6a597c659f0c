// The figures of a sheet's path on a page of text in columns (document 02, item 4).

#![tactic(auto)]

ghost use Rattle.std.specs.Prelude.{◌≡◌};
ghost use Rattle.page.specs.Answers.{page_answer, bytes_paged};

use crate::line::{put_operator, put_path};
use figures::figures;
use quantity::Units;
use quantity::refusal::Refusal;

mod column;
mod line;

// Sixty characters and a line feed.
const LINE_LENGTH: usize = 61;

// The page of a sheet's path in the 1,037 bytes that are lent, or the first refusal of 1 to 9. It answers the page's length.
pub fn page(sheet: &[u8], lent: &mut [u8]) -> Result<usize, Refusal>
    ensures { (result ≡ page_answer sheet.now lent.old) × (lent.new ≡ bytes_paged sheet.now lent.old) }
{
    if lent.len() != 1037 {
        return Err(Refusal::Unusable);
    }
    let answer = figures(sheet)?;
    let count = answer.path.count;
    let mut capacity = Units(0);
    // By its number: behind `zip` the proof has no index of the two (tried).
    for (k, linked) in answer.path.operators[..count].iter().enumerate() {
        let figure = answer.figures[k];
        put_operator(lent, k * LINE_LENGTH, k, *linked, figure);
        capacity = capacity.plus(figure.capacity);
    }
    let at = count * LINE_LENGTH;
    put_path(lent, at, capacity, answer.delay);
    Ok(at + LINE_LENGTH)
}
