// The class between two operators: its burst at a rate, the most that it carries in a window and its change of interval (document 01, section 4; document 02, item 6).
// A class of rows is the declared one; the most that its rows allow in n slots is entry n − 1 of a lent table.

ghost use Rattle.std.specs.Prelude.{◌≡◌, suc, ℕ, ◌+◌, ◌-◌, ◌*◌, ◌≤◌, ◌<◌, max, ◌∷◌, length, get_or};
ghost use Rattle.quantity.specs.Rounding.{round_up};
ghost use Rattle.flow.specs.Rows.{row_carried, greatest_of};
ghost use Rattle.flow.specs.Classes.{most_in, most_delayed, blocks_met, changed_quota, carries, burst_at};
ghost use Rattle.flow.specs.Declarations.{row_of, several_at};
ghost use Rattle.flow.specs.Bounds.{largest_signed, ClassWithin};
ghost use Rattle.figures.specs.Carried.{class_in, Lent, Reaches, Reached};

use flow::{Declaration, DeclaredRow, Kind};
use quantity::divisor::gcd;
use quantity::{Interval, Rate, Slots, Units};

// What a path's source declares, and the lent table of its rows' bound.
#[derive(Clone, Copy)]
pub(crate) struct Source<'a> {
    pub declared: &'a Declaration,
    pub bound: &'a [u32],
}

// Smooth or uniform (m, Q). Behind a change of interval Q may be larger than a declared quota. Rows are the declaration's, and have no (m, Q) of their own.
#[derive(Clone, Copy)]
pub(crate) struct FlowClass {
    pub kind: Kind,
    pub interval: Interval,
    pub quota: Units,
}

// The slots in which a rate sends so many units: ⌈units/rate⌉.
pub(crate) fn sent_in(units: Units, rate: Rate) -> Slots
    requires { (1 ≤ rate.0) × (units.0 ≤ 4_294_967_295) }
    ensures { result.0 ≡ round_up units.0 rate.0 }
{
    Slots((units.0 as u32).div_ceil(rate.0))
}

// Whether a row has Q ≤ m·R.
fn row_carried(row: DeclaredRow, rate: Rate) -> bool
    ensures { result ≡ row_carried (row_of row) rate.0 }
{
    u64::from(row.quota.0) <= rate.over(Slots(row.interval.0)).0
}

// Numbers below 2^31 have the same order as signed ones, which plain x86-64 compares four at once.
fn larger(a: u32, b: u32) -> u32
    requires { (a ≤ largest_signed) × (b ≤ largest_signed) }
    ensures { result ≡ max a b }
{
    if a as i32 <= b as i32 { b } else { a }
}

// The most that a rate sends in 1,024 slots.
const MOST_SENT: u32 = 67_107_840;

// The greatest that the bound has beyond a rate in 1 to so many slots. Instead of taking off what the rate sent, what it leaves of the most is added: no number falls below 0, and no entry is compared but once.
fn greatest_beyond(bound: &[u32], slots: u32, rate: u32) -> u32
    requires { (slots ≤ length bound.now) × (slots ≤ 1_024) × (rate ≤ 65_535) × ((i : ℕ) → i < slots → get_or bound.now i 0 ≤ 67_107_840) }
    ensures { result ≡ greatest_of (λ n. get_or (0 ∷ bound.now) n 0 - n * rate) slots }
{
    let mut greatest = MOST_SENT;
    let mut left = MOST_SENT;
    for most in &bound[..slots as usize] {
        left -= rate;
        greatest = larger(greatest, *most + left);
    }
    greatest - MOST_SENT
}

// The most in n slots by the table.
fn entry(bound: &[u32], n: u32) -> u32
    requires { n ≤ length bound.now }
    ensures { result ≡ get_or (0 ∷ bound.now) n 0 }
{
    if n == 0 { 0 } else { bound[(n - 1) as usize] }
}

// How many blocks of an interval begin in so many slots: ⌈slots/interval⌉, worked out in the slots' own width.
fn blocks_begun(slots: u32, interval: Interval) -> u64
    requires { 1 ≤ interval.0 }
    ensures { result ≡ round_up slots interval.0 }
{
    u64::from(slots.div_ceil(interval.0))
}

// How many blocks of m slots a block of n slots meets at the most.
fn blocks_met(m: Interval, n: Interval) -> u64
    requires { (1 ≤ m.0) × (m.0 ≤ 1_024) × (1 ≤ n.0) × (n.0 ≤ 1_024) }
    ensures { (result ≡ blocks_met m.0 n.0) × (result ≤ 2_048) }
{
    let g = gcd(m.0, n.0);
    u64::from((m.0 - g + n.0 - 1) / m.0 + 1)
}

impl Source<'_> {
    // The interval of the first declared row with Q ≤ m·R, if there is one.
    fn reach(&self, rate: Rate) -> Option<Interval>
        requires { self.now.declared.now.count ≤ 4 }
        ensures { Reached (several_at self.now.declared.now) self.now.declared.now.count rate.0 result }
    {
        self.declared.rows[..self.declared.count]
            .iter()
            .find(|row| row_carried(**row, rate))
            .map(|row| row.interval)
    }
}

// Each asks what holds of the class and the source together: a fact in either type's own fields could not say it.
impl FlowClass {
    // Whether a rate carries the class.
    pub(crate) fn carried_by(self, source: &Source<'_>, rate: Rate) -> bool
        requires { ClassWithin (class_in source.now.declared.now self) }
        ensures { result ≡ carries (class_in source.now.declared.now self) rate.0 }
    {
        match self.kind {
            Kind::Rows => source.reach(rate).is_some(),
            Kind::Smooth | Kind::Uniform => { self.quota.0 <= rate.over(Slots(self.interval.0)).0 }
        }
    }

    // The burst at a rate.
    pub(crate) fn burst_at(self, source: &Source<'_>, rate: Rate) -> Units
        requires { ClassWithin (class_in source.now.declared.now self) × Lent self.kind source.now.declared.now source.now.bound.now × (rate.0 ≤ 65_535) }
        ensures { result.0 ≡ burst_at (class_in source.now.declared.now self) rate.0 }
    {
        match self.kind {
            Kind::Smooth => Units(2 * self.quota.0),
            Kind::Uniform => self.quota,
            Kind::Rows => match source.reach(rate) {
                Some(interval) => Units(u64::from(greatest_beyond(
                    source.bound,
                    interval.0,
                    rate.0,
                ))),
                None => Units(0),
            },
        }
    }

    // The most that delayers of n slots in all hold before any filter; of a uniform class and of rows that is the most in n slots.
    pub(crate) fn most_delayed(self, source: &Source<'_>, n: Slots) -> Units
        requires { ClassWithin (class_in source.now.declared.now self) × Lent self.kind source.now.declared.now source.now.bound.now × (n.0 ≤ 1_024) }
        ensures { result.0 ≡ most_delayed (class_in source.now.declared.now self) n.0 }
    {
        match self.kind {
            Kind::Smooth => {
                let blocks = blocks_begun(n.0, self.interval);
                Units((blocks + 1) * self.quota.0)
            }
            Kind::Uniform => {
                let blocks = blocks_begun(n.0, self.interval);
                Units(blocks * self.quota.0)
            }
            Kind::Rows => Units(u64::from(entry(source.bound, n.0))),
        }
    }

    // The most that arrives in one slot of a flow of the class that is so many slots late: the most of the class in one slot and so many more.
    pub(crate) fn most_late(self, source: &Source<'_>, late: Slots) -> Units
        requires { ClassWithin (class_in source.now.declared.now self) × Lent self.kind source.now.declared.now source.now.bound.now × Reaches self.kind source.now.bound.now (suc late.0) × (late.0 ≤ 134_218_750) }
        ensures { (result.0 ≡ most_in (class_in source.now.declared.now self) (suc late.0)) × (result.0 ≤ 134_218_751 * 67_108_863) }
    {
        match self.kind {
            Kind::Smooth => {
                let blocks = blocks_begun(late.0, self.interval);
                Units((blocks + 1) * self.quota.0)
            }
            Kind::Uniform => {
                let blocks = blocks_begun(late.0 + 1, self.interval);
                Units(blocks * self.quota.0)
            }
            Kind::Rows => Units(u64::from(source.bound[late.0 as usize])),
        }
    }

    // The quota behind a change of interval.
    pub(crate) fn changed_quota(self, source: &Source<'_>, n: Interval) -> Units
        requires { ClassWithin (class_in source.now.declared.now self) × Lent self.kind source.now.declared.now source.now.bound.now × (1 ≤ n.0) × (n.0 ≤ 1_024) }
        ensures { result.0 ≡ changed_quota n.0 (class_in source.now.declared.now self) }
    {
        match self.kind {
            Kind::Smooth => { Units(blocks_met(self.interval, n) * self.quota.0) }
            Kind::Uniform | Kind::Rows => self.most_delayed(source, Slots(n.0)),
        }
    }
}
