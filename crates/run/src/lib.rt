// A path run slot by slot (document 01, sections 6 and 7).

#![tactic(auto)]

ghost use Rattle.std.specs.Prelude.{◌≡◌, ◌<◌, length};
ghost use Rattle.quantity.specs.Limits.{most_operators};
ghost use Rattle.run.specs.Runs.{run_word_count, meter_in, operator_of, operator_words};

use flow::Declaration;
use meter::SourceMeter;
use operator::Operator;
use operator::ring::PathOperator;
use quantity::{Slots, Units};

pub mod opening;
pub mod slot;
mod stages;
mod test;
pub mod watch;

// The words of a run; its meter's are the first, and each operator's follow.
const WORDS: usize = 2048;

const METER_WORDS: usize = 1024;

const OPERATOR_WORDS: usize = 64;

// The most operators of a path.
const OPERATORS: usize = 16;

// An operator of the path with section 3's b, a filter's h, and a delayer's totals of what entered and of what left, 32 bits wide and wrapping.
// A delayer's b is the difference of its totals; what an operator does not use is 0.
// A PathOperator without its slot, which the run keeps once for all.
#[derive(Clone, Copy)]
pub struct Stage {
    pub operator: Operator,
    pub held: Units,
    pub beside: Units,
    pub entered: u32,
    pub left: u32,
}

// What a slot uses: the declaration, the next slot's number, the block's total under a smooth declaration,
// and the first `count` stages. The stages behind them are empty.
#[derive(Clone, Copy)]
pub struct Run {
    pub declaration: Declaration,
    pub slot: Slots,
    pub block: Units,
    // No heap: an array with its count (document 01 names the form for rows).
    pub count: usize,
    pub stages: [Stage; 16],
}

// The run's meter.
#[tactic(auto, unfolding(crate::specs::Runs::meter_in))]
fn meter_of(run: &Run) -> SourceMeter
    ensures { result ≡ meter_in run.now }
{
    SourceMeter {
        declaration: run.declaration,
        slot: run.slot,
        block: run.block,
    }
}

// A stage at a slot, as an operator within a path. No From: the slot is added.
fn operator_of(stage: Stage, slot: Slots) -> PathOperator
    ensures { result ≡ operator_of stage slot }
{
    PathOperator {
        operator: stage.operator,
        slot,
        held: stage.held,
        beside: stage.beside,
        entered: stage.entered,
        left: stage.left,
    }
}

// The words of operator k.
fn operator_words(words: &[u32], k: usize) -> &[u32]
    requires { (length words.now ≡ run_word_count) × (k < most_operators) }
    ensures { result.now ≡ operator_words words.now k }
{
    let start = METER_WORDS + OPERATOR_WORDS * k;
    &words[start..start + OPERATOR_WORDS]
}
