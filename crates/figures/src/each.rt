// The figure of one operator and what is carried behind it, or why it is refused (document 01, sections 4 and 7; document 02, item 9).

ghost use Rattle.std.specs.Prelude.{◌≡◌, true, false, ◌+◌, ◌-◌, ◌*◌, ◌≤◌};
ghost use Rattle.quantity.specs.Choice.{pick};
ghost use Rattle.operator.specs.Operators.{number_in_range};
ghost use Rattle.operator.specs.declared.Operator.TheVariants.{Limiter, Expander, Filter, Delayer};
ghost use Rattle.figures.specs.Progress.{start};
ghost use Rattle.figures.specs.Figures.{held_figure};
ghost use Rattle.figures.specs.Carried.{Lent, slots_kept, Known, progress_here, changed_class, figure_of, planned_with, CarriedOn, PlannedAs, pairs_with};

use crate::Figure;
use crate::carried::{Carried, Least, framed, sending};
use crate::class::{Source, sent_in};
use flow::Kind;
use operator::Operator;
use quantity::refusal::Refusal;
use quantity::{Delay, Interval, Rate, Slots, Units};

// Section 7, 7: the largest changed quota.
const LARGEST_CHANGED_QUOTA: u64 = 67_108_863;

// What one operator comes to: what is carried behind it and its figure.
#[derive(Clone, Copy)]
pub(crate) struct Planned {
    pub behind: Carried,
    pub figure: Figure,
}

// Whether a compactor n follows an expander n.
#[tactic(auto, unfolding(crate::specs::Figures::pairs))]
fn paired(n: Interval, follower: Option<Operator>) -> bool
    ensures { result ≡ pairs_with (Expander n) follower }
{
    matches!(follower, Some(Operator::Compactor(m)) if m.0 == n.0)
}

// An expander's own delay, which is left out before a compactor of its interval.
fn expander_delay(n: Interval, paired: bool) -> Slots
    ensures { result.0 ≡ pick paired 0 n.0 }
{
    if paired { Slots(0) } else { Slots(n.0) }
}

// What a filter adds to the delay of its part: the slots in which the burst is sent, less those that are counted already.
fn added(before: Option<Least>, after: Option<Least>) -> Slots
    requires { slots_kept before ≤ slots_kept after }
    ensures { result.0 ≡ slots_kept after - slots_kept before }
{
    let whole = sending(after);
    let so_far = sending(before);
    Slots(whole.0 - so_far.0)
}

// An operator's place in a path: its number k, what is carried before it, what the path's source declares, and the most that arrives in one slot.
#[derive(Clone, Copy)]
pub(crate) struct Place<'a> {
    pub k: usize,
    pub carried: Carried,
    pub source: Source<'a>,
    pub arriving: Units,
}

// Known is required and no ghost field: tried, it is a cycle of definitions, since what the methods promise (PlannedAs) names Place.
impl Place<'_> {
    fn limiter(&self, rate: Rate) -> Result<Planned, Refusal>
        requires { Known self.now × (number_in_range (Limiter rate) ≡ true) }
        ensures { PlannedAs self.now (Limiter rate) false result }
    {
        let carried = self.carried;
        if carried.filtering {
            return Err(Refusal::FramedAfterFilter(self.k));
        }
        let most = carried.class.burst_at(&self.source, rate);
        if Units::LARGEST < most.0 {
            return Err(Refusal::FigureTooLarge(self.k));
        }
        if !carried.class.carried_by(&self.source, rate) {
            return Err(Refusal::RateTooLow(self.k));
        }
        Ok(Planned {
            behind: framed(Kind::Uniform, Interval(1), Units(u64::from(rate.0))),
            figure: Figure {
                capacity: most.plus(self.arriving),
                delay: sent_in(most, rate),
            },
        })
    }

    // An expander, or a compactor, whose held figure and delay are those of an expander that has no pair; its output is of this kind, and of the changed quota. A quota that is not too large is no held figure too large. What an expander holds at the most has what arrives already, so that its `arriving` is 0.
    fn frame(
        &self,
        arriving: Units,
        output: Kind,
        n: Interval,
        paired: bool,
    ) -> Result<Planned, Refusal>
        requires { Known self.now × (number_in_range (Expander n) ≡ true) × Lent output self.now.source.declared.now self.now.source.bound.now × (arriving.0 ≤ 134_218_751 * 67_108_863) }
        ensures { (figure_of result ≡ planned_with (progress_here self.now) (Expander n) paired (held_figure (progress_here self.now) (Expander n) + arriving.0) self.now.k) × CarriedOn self.now.source (start (changed_class self.now.source.declared.now self.now.carried.class output n)) result }
    {
        let carried = self.carried;
        if carried.filtering {
            return Err(Refusal::FramedAfterFilter(self.k));
        }
        let most = carried.class.changed_quota(&self.source, n);
        if LARGEST_CHANGED_QUOTA < most.0 {
            return Err(Refusal::FigureTooLarge(self.k));
        }
        Ok(Planned {
            behind: framed(output, n, most),
            figure: Figure {
                capacity: most.plus(arriving),
                delay: expander_delay(n, paired),
            },
        })
    }

    fn filter(&self, rate: Rate) -> Result<Planned, Refusal>
        requires { Known self.now × (number_in_range (Filter rate) ≡ true) }
        ensures { PlannedAs self.now (Filter rate) false result }
    {
        let carried = self.carried;
        let after = carried.behind_filter(&self.source, rate);
        let most = after.part_held(&self.source);
        if Units::LARGEST < most.0 {
            return Err(Refusal::FigureTooLarge(self.k));
        }
        if !carried.class.carried_by(&self.source, rate) {
            return Err(Refusal::RateTooLow(self.k));
        }
        Ok(Planned {
            behind: after,
            figure: Figure {
                capacity: most.plus(self.arriving),
                delay: added(carried.slowest, after.slowest),
            },
        })
    }

    fn delayer(&self, delay: Delay) -> Result<Planned, Refusal>
        requires { Known self.now × (number_in_range (Delayer delay) ≡ true) }
        ensures { PlannedAs self.now (Delayer delay) false result }
    {
        let after = self.carried.behind_delayer(delay);
        let most = after.part_held(&self.source);
        if Units::LARGEST < most.0 {
            return Err(Refusal::FigureTooLarge(self.k));
        }
        Ok(Planned {
            behind: after,
            figure: Figure {
                capacity: most.plus(self.arriving),
                delay: Slots(delay.0),
            },
        })
    }

    // The figure of the operator there, and what is carried behind it. Its capacity is for the fullest moment, before it sends, when it has what it held and what arrives. `follower` is the next operator, if one follows: only an expander asks for it.
    pub(crate) fn plan(
        &self,
        operator: Operator,
        follower: Option<Operator>,
    ) -> Result<Planned, Refusal>
        requires { Known self.now × (number_in_range operator ≡ true) }
        ensures { PlannedAs self.now operator (pairs_with operator follower) result }
    {
        match operator {
            Operator::Limiter(rate) => self.limiter(rate),
            Operator::Compactor(n) => self.frame(self.arriving, Kind::Uniform, n, false),
            Operator::Expander(n) => self.frame(Units(0), Kind::Smooth, n, paired(n, follower)),
            Operator::Filter(rate) => self.filter(rate),
            Operator::Delayer(delay) => self.delayer(delay),
        }
    }
}
