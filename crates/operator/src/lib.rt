// The five operators, for box makers to use alone, without sheet or ledger (document 01, sections 3, 6 and 7).

#![tactic(auto)]

ghost use Rattle.std.specs.Prelude.{◌≡◌};
ghost use Rattle.operator.specs.Operators.{number_in_range, name_of};
ghost use Rattle.operator.specs.Single.{words_used, uses_held, uses_beside};

use quantity::{Delay, Interval, Quantity, Rate, Slots, Units};

pub mod parts;
pub mod ring;
pub mod single;

// An operator with its number (section 3).
#[derive(Clone, Copy)]
pub enum Operator {
    Limiter(Rate),
    Compactor(Interval),
    Expander(Interval),
    Filter(Rate),
    Delayer(Delay),
}

impl Operator {
    // The name of its kind.
    #[tactic(auto, unfolding(crate::specs::Operators::name_of))]
    pub fn name(self) -> &'static str
        ensures { result.now ≡ name_of self }
    {
        match self {
            Operator::Limiter(_) => "limiter",
            Operator::Compactor(_) => "compactor",
            Operator::Expander(_) => "expander",
            Operator::Filter(_) => "filter",
            Operator::Delayer(_) => "delayer",
        }
    }

    // Whether the operator's number is in its range.
    #[tactic(auto, unfolding(crate::specs::Operators::number_in_range))]
    pub fn number_in_range(self) -> bool
        ensures { result ≡ number_in_range self }
    {
        match self {
            Operator::Limiter(rate) | Operator::Filter(rate) => rate.in_range(),
            Operator::Compactor(interval) | Operator::Expander(interval) => interval.in_range(),
            Operator::Delayer(delay) => delay.in_range(),
        }
    }

    // How many of the words the operator uses: a part, for the crate that works out a path's figures.
    #[tactic(auto, unfolding(crate::specs::Single::words_used))]
    pub fn words_used(self) -> usize
        ensures { result ≡ words_used self }
    {
        match self {
            Operator::Delayer(delay) => delay.0 as usize,
            _ => 0,
        }
    }

    // Whether section 3's b is in the state's field: a delayer's is in its words.
    #[tactic(auto, unfolding(crate::specs::Single::uses_held))]
    pub(crate) fn uses_held(self) -> bool
        ensures { result ≡ uses_held self }
    {
        !matches!(self, Operator::Delayer(_))
    }

    // Whether the operator has an h.
    #[tactic(auto, unfolding(crate::specs::Single::uses_beside))]
    pub(crate) fn uses_beside(self) -> bool
        ensures { result ≡ uses_beside self }
    {
        matches!(self, Operator::Filter(_))
    }
}

// The state of a single operator: its next slot's number, section 3's b and a filter's h.
// A delayer's b is in its words alone; what an operator doesn't use is 0.
#[derive(Clone, Copy)]
pub struct SingleOperator {
    pub operator: Operator,
    pub slot: Slots,
    pub held: Units,
    pub beside: Units,
}
