// Tables of words, each with what it stands for.

ghost use Rattle.std.specs.Prelude.{◌≡◌, ◌+◌, ◌≤◌, true, length, IfSome};
ghost use Rattle.text.specs.Lines.{begins_with};

use text::line::starts_with;

// What a line's first word stands for, and the text behind the word and a space; none, where the line ends with the word.
#[derive(Clone, Copy)]
pub struct Found<'a, T> {
    pub what: T,
    pub behind: Option<&'a [u8]>,
}

// The first word of the table with which a line begins, and behind which it ends or has a space.
pub fn find<'a, T: Copy>(words: &[(&[u8], T)], line: &'a [u8]) -> Option<Found<'a, T>>
    ensures { IfSome result (λ found. IfSome found.behind (λ behind. length behind.now ≤ length line.now)) }
{
    words.iter().find_map(|(word, what)| match text_behind(line, word) {
        Some([]) => Some(Found {
            what: *what,
            behind: None,
        }),
        Some([b' ', behind @ ..]) => Some(Found {
            what: *what,
            behind: Some(behind),
        }),
        _ => None,
    })
}

// What a text has behind a word, if it begins with it.
fn text_behind<'a>(text: &'a [u8], word: &[u8]) -> Option<&'a [u8]>
    ensures { IfSome result (λ behind. (begins_with text.now word.now ≡ true) × (length text.now ≡ length word.now + length behind.now)) }
{
    if starts_with(text, word) {
        text.get(word.len()..)
    } else {
        None
    }
}
