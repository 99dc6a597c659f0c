// A single operator: the least and greatest output of a step, and the step (document 01, sections 3, 6 and 7).

ghost use Rattle.std.specs.Prelude.{◌≡◌};
ghost use Rattle.operator.specs.Single.{bounds_of, step_of, words_after};

use crate::SingleOperator;
use crate::parts::{decide, greatest, keep, least, stored_in};
use quantity::Units;
use quantity::refusal::Refusal;

// What a step's output may be.
#[derive(Clone, Copy)]
pub struct Outputs {
    pub least: Units,
    pub greatest: Units,
}

// What a step answers: the output and the next state.
#[derive(Clone, Copy)]
pub struct Sent {
    pub output: Units,
    pub next: SingleOperator,
}

// The least and greatest output of a single operator's next step.
pub fn bounds_alone(state: SingleOperator, words: &[u32], input: Units) -> Result<Outputs, Refusal>
    ensures { result ≡ bounds_of state words.now input.0 }
{
    if Units::LARGEST < input.0 {
        return Err(Refusal::Unusable);
    }
    let Some(held) = stored_in(state, words) else {
        return Err(Refusal::Unusable);
    };
    let operator = state.operator;
    if !operator.number_in_range() {
        return Err(Refusal::OutOfRange(0));
    }
    let low = least(state, words, held.0, input.0);
    let high = greatest(operator, low, held.0 + input.0);
    Ok(Outputs {
        least: Units(low),
        greatest: Units(high),
    })
}

// A single operator's step. What keep tests of the units that stay is refusal 1, tested last.
pub fn step_alone(
    state: SingleOperator,
    words: &mut [u32],
    input: Units,
    choice: Units,
) -> Result<Sent, Refusal>
    ensures { (result ≡ step_of state words.old input.0 choice.0) × (words.new ≡ words_after state words.old input.0 choice.0) }
{
    if Units::LARGEST < input.0 {
        return Err(Refusal::Unusable);
    }
    let Some(held) = stored_in(state, &words[..]) else {
        return Err(Refusal::Unusable);
    };
    let sending = decide(state, &words[..], held, input, choice)?;
    let next = keep(state, words, input, sending.kept, sending.beside)?;
    let output = sending.output;
    Ok(Sent { output, next })
}
