// What the operators before one have made of the declared class, carried along a path (document 01, section 4).

ghost use Rattle.std.specs.Prelude.{◌≡◌, true, false, ◌+◌, ◌≤◌, None, Some};
ghost use Rattle.quantity.specs.Ranges.{in_range, delay_range};
ghost use Rattle.operator.specs.FilterPart.{filtered, slower};
ghost use Rattle.flow.specs.Declarations.{class_of};
ghost use Rattle.flow.specs.Bounds.{ClassWithin};
ghost use Rattle.operator.specs.Operators.{number_in_range};
ghost use Rattle.operator.specs.declared.Operator.TheVariants.{Filter};
ghost use Rattle.figures.specs.Progress.{start, behind};
ghost use Rattle.figures.specs.Figures.{held_of_part};
ghost use Rattle.figures.specs.Carried.{class_in, slowest_in, progress_in, Lent, ReachesPast, BurstKept, slots_kept, Ready, most_before, most_with, Arriving};

use crate::class::{FlowClass, Source, sent_in};
use flow::{Declaration, Kind};
use quantity::{Delay, Interval, Rate, Slots, Units};

// P, the least filter rate so far, with the burst at it and the slots in which it sends that burst.
#[derive(Clone, Copy)]
pub(crate) struct Least {
    pub rate: Rate,
    pub burst: Units,
    pub slots: Slots,
}

// The class; whether a filter or delayer has come, from which on the class stays; e, the sum of d so far; P, if a filter has come.
#[derive(Clone, Copy)]
pub(crate) struct Carried {
    pub class: FlowClass,
    pub filtering: bool,
    pub e: Slots,
    pub slowest: Option<Least>,
}

// A path starts with its declared class.
pub(crate) fn start(declared: Declaration) -> Carried
    ensures { (progress_in declared result ≡ start (class_of declared)) × (result.class.kind ≡ declared.kind) × (result.slowest ≡ None) }
{
    framed(
        declared.kind,
        declared.interval,
        Units(u64::from(declared.quota.0)),
    )
}

// Behind a framed operator, whose output has a class of its own.
pub(crate) fn framed(kind: Kind, interval: Interval, quota: Units) -> Carried
    ensures { result ≡ record { class = record { kind = kind; interval = interval; quota = quota }; filtering = false; e = record { 0 = 0 }; slowest = None } }
{
    let class = FlowClass {
        kind,
        interval,
        quota,
    };
    Carried {
        class,
        filtering: false,
        e: Slots(0),
        slowest: None,
    }
}

// A rate as the least, with the burst at it. That the rate is in its range is known of the operator whose rate it is.
fn least_rate(class: FlowClass, source: &Source<'_>, rate: Rate) -> Least
    requires { ClassWithin (class_in source.now.declared.now class) × Lent class.kind source.now.declared.now source.now.bound.now × (1 ≤ rate.0) × (rate.0 ≤ 65_535) }
    ensures { (result.rate ≡ rate) × BurstKept (class_in source.now.declared.now class) (Some result) }
{
    let burst = class.burst_at(source, rate);
    Least {
        rate,
        burst,
        slots: sent_in(burst, rate),
    }
}

// The slots in which P sends the burst, 0 where no filter has come.
pub(crate) fn sending(slowest: Option<Least>) -> Slots
    ensures { result.0 ≡ slots_kept slowest }
{
    match slowest {
        None => Slots(0),
        Some(least) => least.slots,
    }
}

// That a progress is Ready is said of it and of the source together, so it is no fact of its own fields.
impl Carried {
    // P with one more filter. Where it stays, its burst is not worked out again.
    fn slower(self, source: &Source<'_>, rate: Rate) -> Least
        requires { Ready most_before source.now self × (1 ≤ rate.0) × (rate.0 ≤ 65_535) }
        ensures { (filtered result.rate.0 ≡ slower (slowest_in self.slowest) rate.0) × BurstKept (class_in source.now.declared.now self.class) (Some result) }
    {
        match self.slowest {
            Some(least) if least.rate.0 <= rate.0 => least,
            _ => least_rate(self.class, source, rate),
        }
    }

    // Behind a filter or a delayer, which keep the class.
    pub(crate) fn behind_filter(self, source: &Source<'_>, rate: Rate) -> Carried
        requires { Ready most_before source.now self × (number_in_range (Filter rate) ≡ true) }
        ensures { (progress_in source.now.declared.now result ≡ behind (progress_in source.now.declared.now self) (Filter rate)) × Ready most_with source.now result }
    {
        Carried {
            class: self.class,
            filtering: true,
            e: self.e,
            slowest: Some(self.slower(source, rate)),
        }
    }

    pub(crate) fn behind_delayer(self, delay: Delay) -> Carried
        requires { (self.e.0 ≤ most_before) × (in_range delay_range delay.0 ≡ true) }
        ensures { result ≡ record { class = self.class; filtering = true; e = record { 0 = self.e.0 + delay.0 }; slowest = self.slowest } }
    {
        Carried {
            class: self.class,
            filtering: true,
            e: self.e.plus(Slots(delay.0)),
            slowest: self.slowest,
        }
    }

    // The held figure of the filter part so far.
    pub(crate) fn part_held(self, source: &Source<'_>) -> Units
        requires { Ready most_with source.now self }
        ensures { result.0 ≡ held_of_part (progress_in source.now.declared.now self) }
    {
        match self.slowest {
            None => self.class.most_delayed(source, self.e),
            Some(least) => least.burst.plus(least.rate.over(self.e)),
        }
    }

    // The most that arrives at the next operator in one slot: a filter part makes its flow late.
    pub(crate) fn most_arriving(self, source: &Source<'_>) -> Units
        requires { Ready most_before source.now self × ReachesPast self.class.kind source.now.declared.now source.now.bound.now self.e.0 }
        ensures { Arriving (progress_in source.now.declared.now self) result }
    {
        let late = sending(self.slowest).plus(self.e);
        self.class.most_late(source, late)
    }
}
