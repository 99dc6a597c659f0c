// Opening a run (document 01, sections 6 and 7).

ghost use Rattle.std.specs.Prelude.{◌≡◌, ℕ, ◌<◌, ◌≤◌, length, slice_index};
ghost use Rattle.quantity.specs.Limits.{most_operators};
ghost use Rattle.sheet.specs.Paths.{Path};
ghost use Rattle.sheet.specs.Forms.{value_of_path};
ghost use Rattle.run.specs.Opening.{stage_of, new_run, no_run, opened_of, words_opened};

use crate::{Run, Stage};
use figures::figures;
use flow::{Declaration, Kind};
use operator::Operator;
use quantity::refusal::Refusal;
use quantity::{Interval, Link, Quota, Rate, Slots, Units};
use sheet::{LinkedOperator, PathValue};

// Opens the run of a sheet's path and clears all words, whatever they held. A refusal leaves them.
pub fn open(sheet: &[u8], words: &mut [u32]) -> Result<Run, Refusal>
    ensures { (result ≡ opened_of sheet.now words.old) × (words.new ≡ words_opened sheet.now words.old) }
{
    if words.len() != crate::WORDS {
        return Err(Refusal::Unusable);
    }
    let planned = figures(sheet)?;
    clear(words);
    Ok(new_run(planned.path))
}

// Every word, whatever it held.
fn clear(words: &mut [u32])
    ensures len { length words.new ≡ length words.old }
    ensures zero { (j : ℕ) → j < length words.old → slice_index words.new j ≡ 0 }
{
    words.fill(0);
}

// The run of a path before its first slot. The places behind a path's operators are empty, and so are the stages.
fn new_run(path: PathValue) -> Run
    ensures { (given : Path) → length given.operators ≤ most_operators → path ≡ value_of_path path.form given → result ≡ new_run given }
{
    Run {
        declaration: path.declaration,
        slot: Slots(0),
        block: Units(0),
        count: path.count,
        stages: path.operators.map(new_stage),
    }
}

// A place's operator with nothing held.
fn new_stage(linked: LinkedOperator) -> Stage
    ensures { result ≡ stage_of linked.operator }
{
    Stage {
        operator: linked.operator,
        held: Units(0),
        beside: Units(0),
        entered: 0,
        left: 0,
    }
}

// The empty run, for who has none yet: its stages are limiters 0 that hold nothing.
// Public (README); the planner's own programs keep an Option<Run>.
pub fn no_run() -> Run
    ensures { result ≡ no_run }
{
    let none = new_stage(LinkedOperator {
        operator: Operator::Limiter(Rate(0)),
        link: Link(0),
    });
    Run {
        declaration: Declaration::of_one_row(Kind::Smooth, Interval(0), Quota(0)),
        slot: Slots(0),
        block: Units(0),
        count: 0,
        stages: [none; 16],
    }
}
