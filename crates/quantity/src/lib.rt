// The quantities of document 01, section 1: each kind of number is a type of its own and carries its own least and largest value.

#![tactic(auto)]

ghost use Rattle.std.specs.Prelude.{◌≡◌, ℕ, Option, refl};
ghost use Rattle.quantity.specs.Quantities.{slots_sum, units_sum, rates_sum, units_over};
ghost use Rattle.quantity.specs.Ranges.{in_range, checked_in, checked_interval, checked_quota, checked_rate, checked_delay, checked_wanted_delay, checked_link, checked_path_number, checked_link_capacity, checked_hops, checked_packet, interval_range, quota_range, rate_range, delay_range, wanted_delay_range, link_range, path_number_range, link_capacity_range, hops_range, packet_range};

pub mod divisor;
pub mod refusal;

// A number of slots, or a slot's number.
#[derive(Clone, Copy)]
pub struct Slots(pub u32);

impl Slots {
    // The last slot's number.
    pub const LAST: u32 = 1_073_741_822;

    // Slots, units and rates have a sum each: one call of the library's, which a trait would only make longer.
    // Slots are added to slots alone; the sum stops at the largest number of 32 bits.
    #[tactic(auto, unfolding(crate::specs::Quantities::slots_sum))]
    pub fn plus(self, other: Slots) -> Slots
        ensures { result ≡ slots_sum self other }
    {
        Slots(self.0.saturating_add(other.0))
    }
}

// A number of units.
#[derive(Clone, Copy)]
pub struct Units(pub u64);

impl Units {
    // The largest amount that is given or stored (section 7, refusal 1).
    pub const LARGEST: u64 = 1_073_741_823;

    // Units are added to units alone; the sum stops at the largest number of 64 bits.
    #[tactic(auto, unfolding(crate::specs::Quantities::units_sum))]
    pub fn plus(self, other: Units) -> Units
        ensures { result ≡ units_sum self other }
    {
        Units(self.0.saturating_add(other.0))
    }
}

// Ten types and not one with its range as parameters: quota, rate and packet have the same range and are kinds apart (section 1).
// A kind of number, with its least and its largest value. What is said of one kind's range is said here of all.
pub trait Quantity: Copy {
    const LEAST: u32;

    const LARGEST: u32;

    ghost LEAST: { ℕ };

    ghost LARGEST: { ℕ };

    ghost of: { ℕ → Self };

    ghost number: { Self → ℕ };

    // The kind's checking constructor, by the name that it has among the ranges.
    ghost check: { ℕ → Option Self };

    // The number as one of its kind, whatever it is. No From, which would hide that it is not tested.
    fn new(value: u32) -> Self
        ensures { result ≡ of value };

    fn value(self) -> u32
        ensures { result ≡ number self };

    // It takes just what lies in the kind's range, and so does `checked`.
    ghost check_in_range: { (value : ℕ) → check value ≡ checked_in (record { least = LEAST; largest = LARGEST }) of value };

    // The number as one of its kind, if it is in the kind's range. Document 01 names a checking constructor; TryFrom's error would say no more than None.
    #[tactic(auto, unfolding(crate::specs::Ranges::checked_in, crate::specs::Ranges::in_range))]
    final fn checked(value: u32) -> Option<Self>
        ensures { result ≡ checked_in (record { least = LEAST; largest = LARGEST }) of value }
    {
        if (Self::LEAST..=Self::LARGEST).contains(&value) {
            Some(Self::new(value))
        } else {
            None
        }
    }

    #[tactic(auto, unfolding(crate::specs::Ranges::in_range))]
    final fn in_range(self) -> bool
        ensures { result ≡ in_range (record { least = LEAST; largest = LARGEST }) (number self) }
    {
        (Self::LEAST..=Self::LARGEST).contains(&self.value())
    }
}

// An interval m, in slots.
#[derive(Clone, Copy)]
pub struct Interval(pub u32);

impl Quantity for Interval {
    const LEAST: u32 = 1;

    const LARGEST: u32 = 1024;

    ghost LEAST = { interval_range.least };

    ghost LARGEST = { interval_range.largest };

    ghost of = { λ value. record { 0 = value } };

    ghost number = { λ interval. interval.0 };

    ghost check = { checked_interval };

    ghost check_in_range = { λ value. refl };

    fn new(value: u32) -> Interval {
        Interval(value)
    }

    fn value(self) -> u32 {
        self.0
    }
}

// A declared quota Q, in units.
#[derive(Clone, Copy)]
pub struct Quota(pub u32);

impl Quantity for Quota {
    const LEAST: u32 = 1;

    const LARGEST: u32 = 65535;

    ghost LEAST = { quota_range.least };

    ghost LARGEST = { quota_range.largest };

    ghost of = { λ value. record { 0 = value } };

    ghost number = { λ quota. quota.0 };

    ghost check = { checked_quota };

    ghost check_in_range = { λ value. refl };

    fn new(value: u32) -> Quota {
        Quota(value)
    }

    fn value(self) -> u32 {
        self.0
    }
}

// A rate R, in units per slot.
#[derive(Clone, Copy)]
pub struct Rate(pub u32);

impl Quantity for Rate {
    const LEAST: u32 = 1;

    const LARGEST: u32 = 65535;

    ghost LEAST = { rate_range.least };

    ghost LARGEST = { rate_range.largest };

    ghost of = { λ value. record { 0 = value } };

    ghost number = { λ rate. rate.0 };

    ghost check = { checked_rate };

    ghost check_in_range = { λ value. refl };

    fn new(value: u32) -> Rate {
        Rate(value)
    }

    fn value(self) -> u32 {
        self.0
    }
}

impl Rate {
    // Rates are added to rates alone; the sum stops at the largest number of 32 bits.
    #[tactic(auto, unfolding(crate::specs::Quantities::rates_sum))]
    pub fn plus(self, other: Rate) -> Rate
        ensures { result ≡ rates_sum self other }
    {
        Rate(self.0.saturating_add(other.0))
    }

    // The units that the rate makes in so many slots.
    #[tactic(auto, unfolding(crate::specs::Quantities::units_over))]
    pub fn over(self, slots: Slots) -> Units
        ensures { result ≡ units_over self slots }
    {
        Units(u64::from(self.0) * u64::from(slots.0))
    }
}

// The delay d of a delayer, in slots.
#[derive(Clone, Copy)]
pub struct Delay(pub u32);

impl Quantity for Delay {
    const LEAST: u32 = 1;

    const LARGEST: u32 = 64;

    ghost LEAST = { delay_range.least };

    ghost LARGEST = { delay_range.largest };

    ghost of = { λ value. record { 0 = value } };

    ghost number = { λ delay. delay.0 };

    ghost check = { checked_delay };

    ghost check_in_range = { λ value. refl };

    fn new(value: u32) -> Delay {
        Delay(value)
    }

    fn value(self) -> u32 {
        self.0
    }
}

// The delay wanted of a path, in slots.
#[derive(Clone, Copy)]
pub struct WantedDelay(pub u32);

impl Quantity for WantedDelay {
    const LEAST: u32 = 0;

    const LARGEST: u32 = 65535;

    ghost LEAST = { wanted_delay_range.least };

    ghost LARGEST = { wanted_delay_range.largest };

    ghost of = { λ value. record { 0 = value } };

    ghost number = { λ wanted_delay. wanted_delay.0 };

    ghost check = { checked_wanted_delay };

    ghost check_in_range = { λ value. refl };

    fn new(value: u32) -> WantedDelay {
        WantedDelay(value)
    }

    fn value(self) -> u32 {
        self.0
    }
}

// A link's number.
#[derive(Clone, Copy)]
pub struct Link(pub u32);

impl Quantity for Link {
    const LEAST: u32 = 0;

    const LARGEST: u32 = 15;

    ghost LEAST = { link_range.least };

    ghost LARGEST = { link_range.largest };

    ghost of = { λ value. record { 0 = value } };

    ghost number = { λ link. link.0 };

    ghost check = { checked_link };

    ghost check_in_range = { λ value. refl };

    fn new(value: u32) -> Link {
        Link(value)
    }

    fn value(self) -> u32 {
        self.0
    }
}

// A path's number in a ledger.
#[derive(Clone, Copy)]
pub struct PathNumber(pub u32);

impl Quantity for PathNumber {
    const LEAST: u32 = 0;

    const LARGEST: u32 = 65535;

    ghost LEAST = { path_number_range.least };

    ghost LARGEST = { path_number_range.largest };

    ghost of = { λ value. record { 0 = value } };

    ghost number = { λ path_number. path_number.0 };

    ghost check = { checked_path_number };

    ghost check_in_range = { λ value. refl };

    fn new(value: u32) -> PathNumber {
        PathNumber(value)
    }

    fn value(self) -> u32 {
        self.0
    }
}

// A link's capacity, in units per slot: what its paths may reserve together.
#[derive(Clone, Copy)]
pub struct LinkCapacity(pub u32);

impl Quantity for LinkCapacity {
    const LEAST: u32 = 0;

    const LARGEST: u32 = 1_000_000;

    ghost LEAST = { link_capacity_range.least };

    ghost LARGEST = { link_capacity_range.largest };

    ghost of = { λ value. record { 0 = value } };

    ghost number = { λ link_capacity. link_capacity.0 };

    ghost check = { checked_link_capacity };

    ghost check_in_range = { λ value. refl };

    fn new(value: u32) -> LinkCapacity {
        LinkCapacity(value)
    }

    fn value(self) -> u32 {
        self.0
    }
}

// How many hops a house profile has.
#[derive(Clone, Copy)]
pub struct Hops(pub u32);

impl Quantity for Hops {
    const LEAST: u32 = 1;

    const LARGEST: u32 = 5;

    ghost LEAST = { hops_range.least };

    ghost LARGEST = { hops_range.largest };

    ghost of = { λ value. record { 0 = value } };

    ghost number = { λ hops. hops.0 };

    ghost check = { checked_hops };

    ghost check_in_range = { λ value. refl };

    fn new(value: u32) -> Hops {
        Hops(value)
    }

    fn value(self) -> u32 {
        self.0
    }
}

// The length of a longest packet, in units.
#[derive(Clone, Copy)]
pub struct Packet(pub u32);

impl Quantity for Packet {
    const LEAST: u32 = 1;

    const LARGEST: u32 = 65535;

    ghost LEAST = { packet_range.least };

    ghost LARGEST = { packet_range.largest };

    ghost of = { λ value. record { 0 = value } };

    ghost number = { λ packet. packet.0 };

    ghost check = { checked_packet };

    ghost check_in_range = { λ value. refl };

    fn new(value: u32) -> Packet {
        Packet(value)
    }

    fn value(self) -> u32 {
        self.0
    }
}
