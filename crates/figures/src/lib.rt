// The figures of a path: a capacity and a delay for each operator, and the path's delay (document 01, sections 4 and 7).

#![tactic(auto)]

ghost use Rattle.std.specs.Prelude.{◌≡◌, true, ◌≤◌, ◌<◌, length};
ghost use Rattle.flow.specs.Declarations.{has_rows};
ghost use Rattle.figures.specs.Answers.{figures_of};
ghost use Rattle.figures.specs.Carried.{slots_before, most_before, PathWithin, Readable, NoFigures, follower_in, planned_by, planned_of_value};
ghost use Rattle.figures.specs.Cameras.{is_camera};

use crate::camera::{MOST, is_camera};
use crate::carried::start;
use crate::class::Source;
use crate::each::Place;
use flow::bound::{LENGTH, SHORTEST, fill};
use operator::Operator;
use quantity::refusal::Refusal;
use quantity::{Slots, Units};
use sheet::read::read;
use sheet::{LinkedOperator, PathValue};

mod camera;
mod carried;
mod class;
mod each;

// An operator's capacity and its own delay.
#[derive(Clone, Copy)]
pub struct Figure {
    pub capacity: Units,
    pub delay: Slots,
}

const NO_FIGURE: Figure = Figure {
    capacity: Units(0),
    delay: Slots(0),
};

// The path that was read, the figures of its operators and its delay. The figures are a list beside the operators: a path is copied without them.
#[derive(Clone, Copy)]
pub struct PathFigures {
    pub path: PathValue,
    pub figures: [Figure; 16],
    pub delay: Slots,
}

// The figures of a sheet's path, or the first refusal of 2 to 9. The path stays where it was read until it is answered, since copies take time.
pub fn figures(sheet: &[u8]) -> Result<PathFigures, Refusal>
    ensures { result ≡ figures_of sheet.now }
{
    let path = read(sheet)?;
    let mut figures = [NO_FIGURE; 16];
    let delay = plan_path(&path, &mut figures)?;
    Ok(PathFigures {
        path,
        figures,
        delay,
    })
}

// The delay of a path, and the figures of its operators in the places that are lent: what is lent is written where it stands, since copies take time. With one row there is no table to be read.
// PathWithin is what `read` promises of a path: a type for it would be made at one place and opened in four.
fn plan_path(path: &PathValue, figures: &mut [Figure; 16]) -> Result<Slots, Refusal>
    requires { PathWithin path.now × NoFigures figures.old }
    ensures { planned_by figures.new result ≡ planned_of_value path.now }
{
    if path.declaration.kind.has_rows() {
        figures_of_rows(path, figures)
    } else {
        figures_read(path, &[], figures)
    }
}

// Where the declaration has rows their bound is worked out first, once for the whole path; the standard camera's is the constant table. Each table is in a function of its own, since a table in memory takes time wherever it is not read.
fn figures_of_rows(path: &PathValue, figures: &mut [Figure; 16]) -> Result<Slots, Refusal>
    requires { PathWithin path.now × (has_rows path.now.declaration.kind ≡ true) × NoFigures figures.old }
    ensures { planned_by figures.new result ≡ planned_of_value path.now }
{
    if is_camera(path.declaration) {
        return figures_of_camera(path, figures);
    }
    let asked = SHORTEST + slots_before(path);
    let mut bound = [0; LENGTH];
    fill(path.declaration, &mut bound[..asked]);
    figures_read(path, &bound[1..asked], figures)
}

// The slots of the delayers before the last operator, a word each: what arrives at an operator is late by no more than these and an interval of the rows.
fn slots_before(path: &PathValue) -> usize
    requires { PathWithin path.now }
    ensures { (result ≡ slots_before path.now) × (result ≤ most_before) }
{
    let mut slots = 0;
    for linked in &path.operators[..path.count.saturating_sub(1)] {
        slots += linked.operator.words_used();
    }
    slots
}

fn figures_of_camera(path: &PathValue, figures: &mut [Figure; 16]) -> Result<Slots, Refusal>
    requires { PathWithin path.now × (has_rows path.now.declaration.kind ≡ true) × (is_camera path.now.declaration ≡ true) × NoFigures figures.old }
    ensures { planned_by figures.new result ≡ planned_of_value path.now }
{
    figures_read(path, &MOST, figures)
}

// The operator behind operator k, if one follows.
fn follower(operators: &[LinkedOperator], k: usize) -> Option<Operator>
    requires { k < length operators.now }
    ensures { result ≡ follower_in operators.now k }
{
    operators.get(k + 1).map(|next| next.operator)
}

// The figures of the path that was read, operator by operator from the left.
fn figures_read(
    path: &PathValue,
    bound: &[u32],
    figures: &mut [Figure; 16],
) -> Result<Slots, Refusal>
    requires { Readable path.now bound.now × NoFigures figures.old }
    ensures { planned_by figures.new result ≡ planned_of_value path.now }
{
    let source = Source {
        declared: &path.declaration,
        bound,
    };
    let operators = &path.operators[..path.count];
    let mut carried = start(path.declaration);
    let mut delay = Slots(0);
    for (k, linked) in operators.iter().enumerate() {
        let place = Place {
            k,
            carried,
            source,
            arriving: carried.most_arriving(&source),
        };
        let planned = place.plan(linked.operator, follower(operators, k))?;
        figures[k] = planned.figure;
        delay = delay.plus(planned.figure.delay);
        carried = planned.behind;
    }
    if path.wanted.0 < delay.0 {
        return Err(Refusal::DelayAboveWanted);
    }
    Ok(delay)
}
