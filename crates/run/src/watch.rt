// What each operator of a run holds (document 01, sections 3, 6 and 7).

ghost use Rattle.std.specs.Prelude.{◌≡◌, ◌<◌, List, ℕ};
ghost use Rattle.quantity.specs.Limits.{most_operators};
ghost use Rattle.quantity.specs.Sums.{list_of};
ghost use Rattle.run.specs.Watching.{units_held, watched_of};

use crate::test::run_usable;
use crate::{Run, operator_of};
use operator::ring::holds;
use quantity::Units;
use quantity::refusal::Refusal;
use std::array;

// What each operator holds, section 3's b, and 0 behind them: for people who watch a path.
pub fn held(run: Run, words: &[u32]) -> Result<[Units; 16], Refusal>
    ensures { result ≡ watched_of run words.now }
{
    if run_usable(&run, words) {
        Ok(units_held(&run))
    } else {
        Err(Refusal::Unusable)
    }
}

fn units_held(run: &Run) -> [Units; 16]
    ensures { (words : List ℕ) → result ≡ list_of (units_held run.now words) most_operators }
{
    array::from_fn(|k| units_at(run, k))
}

fn units_at(run: &Run, k: usize) -> Units
    requires { k < most_operators }
    ensures { (words : List ℕ) → result ≡ units_held run.now words k }
{
    if k < run.count {
        holds(operator_of(run.stages[k], run.slot))
    } else {
        Units(0)
    }
}
