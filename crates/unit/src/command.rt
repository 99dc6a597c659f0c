// The words that a command begins with.

#[derive(Clone, Copy)]
pub(crate) enum Word {
    // A new unit.
    Limiter,
    Compactor,
    Expander,
    Filter,
    Delayer,
    SmoothMeter,
    UniformMeter,
    RowsMeter,
    // To either unit.
    SetSlot,
    SetWord,
    Words,
    State,
    // To an operator.
    SetHeld,
    SetBeside,
    Step,
    Bounds,
    // To a meter.
    SetBlock,
    Take,
    Room,
}

pub(crate) const WORDS: [(&[u8], Word); 19] = [
    (b"limiter", Word::Limiter),
    (b"compactor", Word::Compactor),
    (b"expander", Word::Expander),
    (b"filter", Word::Filter),
    (b"delayer", Word::Delayer),
    (b"meter smooth", Word::SmoothMeter),
    (b"meter uniform", Word::UniformMeter),
    (b"meter rows", Word::RowsMeter),
    (b"set slot", Word::SetSlot),
    (b"set word", Word::SetWord),
    (b"words", Word::Words),
    (b"state", Word::State),
    (b"set held", Word::SetHeld),
    (b"set beside", Word::SetBeside),
    (b"step", Word::Step),
    (b"bounds", Word::Bounds),
    (b"set block", Word::SetBlock),
    (b"take", Word::Take),
    (b"room", Word::Room),
];
