// The lines of a page: one for each operator, and the last one for the path (document 02, item 4).

ghost use Rattle.std.specs.Prelude.{◌≡◌, [], ◌+◌, ◌≤◌, length, get_or};
ghost use Rattle.std.proofs.lemmas.List.Edits.{sets};
ghost use Rattle.sheet.specs.Bodies.{operator_byte};
ghost use Rattle.page.specs.Pages.{line_of, kind_names, operator_cells, path_cells};

use crate::column::{put_characters, put_digits, put_spaces};
use figures::Figure;
use operator::Operator;
use quantity::{Slots, Units};
use sheet::LinkedOperator;

// Where the columns of a line begin, for a text, and where they end, for a number.
const INDEX_END: usize = 4;

const KIND_AT: usize = 4;

const LINK_END: usize = 20;

const CAPACITY_END: usize = 40;

const DELAY_END: usize = 60;

const LINE_FEED_AT: usize = 60;

const LINE_FEED: u8 = b'\n';

fn kind_name(operator: Operator) -> &'static [u8]
    ensures { result.now ≡ get_or kind_names (operator_byte operator) [] }
{
    operator.name().as_bytes()
}

// Twenty characters hold every number of 64 bits.
pub(crate) fn put_operator(
    lent: &mut [u8],
    at: usize,
    index: usize,
    linked: LinkedOperator,
    figure: Figure,
)
    requires { (index ≤ 15) × (linked.link.0 ≤ 15) × (at + 61 ≤ length lent.old) }
    ensures { lent.new ≡ sets lent.old at (line_of (operator_cells index linked.operator linked.link.0 figure)) }
{
    put_spaces(lent, at);
    put_digits(lent, at + INDEX_END, index as u64);
    put_characters(lent, at + KIND_AT, kind_name(linked.operator));
    put_digits(lent, at + LINK_END, u64::from(linked.link.0));
    put_digits(lent, at + CAPACITY_END, figure.capacity.0);
    put_digits(lent, at + DELAY_END, u64::from(figure.delay.0));
    lent[at + LINE_FEED_AT] = LINE_FEED;
}

pub(crate) fn put_path(lent: &mut [u8], at: usize, capacity: Units, delay: Slots)
    requires { at + 61 ≤ length lent.old }
    ensures { lent.new ≡ sets lent.old at (line_of (path_cells capacity.0 delay.0)) }
{
    put_spaces(lent, at);
    put_characters(lent, at + KIND_AT, b"path");
    put_digits(lent, at + CAPACITY_END, capacity.0);
    put_digits(lent, at + DELAY_END, u64::from(delay.0));
    lent[at + LINE_FEED_AT] = LINE_FEED;
}
