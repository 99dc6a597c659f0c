// The house profiles: the ranges of their numbers, and the paths that they stand for (document 02, item 2).

ghost use Rattle.std.specs.Prelude.{◌≡◌, true, ◌++◌, ◌+◌, ◌*◌, ◌≤◌, length, eqb};
ghost use Rattle.std.proofs.lemmas.List.Edits.{sets};
ghost use Rattle.quantity.specs.Choice.{pick};
ghost use Rattle.quantity.specs.Ranges.{in_range, rate_range};
ghost use Rattle.sheet.specs.Numbers.{bytes_of};
ghost use Rattle.sheet.specs.House.{house_in, house_body, delayer_slots, packets_unused, packets_in_range, profile_in_range, house_in_range, house_fits, hop_length, hop_operator, house_operator};
ghost use Rattle.sheet.specs.Fields.{field_of};

use crate::read::number_at;
use crate::write::write_number;
use crate::{HOUSE, HOUSE_AT, House, LinkedOperator};
use operator::Operator;
use quantity::{Delay, Hops, Interval, Link, Packet, Quantity, Quota, Rate, WantedDelay};

fn product(a: u32, b: u32) -> u64
    ensures { result ≡ a * b }
{
    u64::from(a) * u64::from(b)
}

// The slots of a delayer: ⌈(L.C + X.R)/(R.C)⌉.
fn delayer_slots(house: House) -> u32
    requires { (house.own_packet.0 ≤ 65_535) × (house.longest_packet.0 ≤ 65_535) × (1 ≤ house.rate.0) × (house.rate.0 ≤ 65_535) × (1 ≤ house.link_rate.0) × (house.link_rate.0 ≤ 65_535) }
    ensures { result ≡ delayer_slots house }
{
    let whole = product(house.rate.0, house.link_rate.0);
    let units = product(house.own_packet.0, house.link_rate.0)
        + product(house.longest_packet.0, house.rate.0);
    units.div_ceil(whole) as u32
}

// Whether L, X and C are 0, as in a profile that does not use them.
#[tactic(auto, unfolding(crate::specs::House::packets_unused))]
fn packets_unused(house: House) -> bool
    ensures { result ≡ packets_unused house }
{
    house.own_packet.0 == 0 && house.longest_packet.0 == 0 && house.link_rate.0 == 0
}

#[tactic(auto, unfolding(crate::specs::House::packets_in_range, quantity::specs::Ranges::in_range))]
fn packets_in_range(house: House) -> bool
    requires { in_range rate_range house.rate.0 ≡ true }
    ensures { result ≡ packets_in_range house }
{
    house.own_packet.in_range()
        && house.longest_packet.in_range()
        && house.link_rate.in_range()
        && Delay(delayer_slots(house)).in_range()
}

#[tactic(auto, unfolding(crate::specs::House::profile_in_range))]
fn profile_in_range(house: House) -> bool
    ensures { result ≡ profile_in_range house }
{
    match house.profile {
        0 => house.rate.0 == 0 && packets_unused(house),
        1 => house.rate.in_range() && packets_unused(house),
        _ => house.rate.in_range() && packets_in_range(house),
    }
}

// Whether the nine numbers are in their ranges (section 7, 5).
#[tactic(auto, unfolding(crate::specs::House::house_in_range))]
pub(crate) fn in_range(house: House) -> bool
    ensures { result ≡ house_in_range house }
{
    house.profile <= 2
        && house.hops.in_range()
        && house.wanted.in_range()
        && house.interval.in_range()
        && house.quota.in_range()
        && profile_in_range(house)
}

// How many operators a hop has.
#[tactic(auto, unfolding(crate::specs::House::hop_length))]
pub(crate) fn hop_length(house: House) -> usize
    ensures { result ≡ hop_length house }
{
    match house.profile {
        1 => 3,
        _ => 2,
    }
}

// The operator at an index of a hop. The range is required, not a type: one test stands before the readers of it, and a type would be wrapped and unwrapped at each.
#[tactic(auto, unfolding(crate::specs::House::hop_operator))]
fn hop_operator(house: House, i: usize) -> Operator
    requires { house_in_range house ≡ true }
    ensures { result ≡ hop_operator house i }
{
    let interval = house.interval;
    let rate = house.rate;
    match (house.profile, i) {
        (0, 0) => Operator::Compactor(interval),
        (0, _) => Operator::Expander(interval),
        (1, 0) => Operator::Limiter(rate),
        (1, 1) => Operator::Compactor(interval),
        (1, _) => Operator::Expander(interval),
        (_, 0) => Operator::Filter(rate),
        _ => Operator::Delayer(Delay(delayer_slots(house))),
    }
}

// Operator k of the path: hop j, counted from 0, is on link j.
pub(crate) fn house_operator(house: House, k: usize) -> LinkedOperator
    requires { (house_in_range house ≡ true) × (k ≤ 15) }
    ensures { result ≡ house_operator house k }
{
    let length = hop_length(house);
    let operator = hop_operator(house, k % length);
    let link = Link((k / length) as u32);
    LinkedOperator { operator, link }
}

#[tactic(auto, unfolding(crate::specs::House::house_in, crate::specs::House::house_fits))]
pub(crate) fn read_house(body: &[u8]) -> Option<House>
    requires { length body.now ≡ 22 }
    ensures { result ≡ pick (house_fits body.now) (Some (house_in body.now)) None }
{
    let house = House {
        profile: body[0],
        hops: Hops(u32::from(body[1])),
        wanted: WantedDelay(number_at(body, 2, 4)),
        interval: Interval(number_at(body, 6, 2)),
        quota: Quota(number_at(body, 8, 4)),
        rate: Rate(number_at(body, 12, 4)),
        own_packet: Packet(number_at(body, 16, 2)),
        longest_packet: Packet(number_at(body, 18, 2)),
        link_rate: Rate(number_at(body, 20, 2)),
    };
    if in_range(house) { Some(house) } else { None }
}

pub(crate) fn write_house(sheet: &mut [u8], house: House)
    requires { (house_in_range house ≡ true) × (25 ≤ length sheet.old) }
    ensures { sheet.new ≡ sets sheet.old 0 (field_of 0x04 (house_body house)) }
{
    HOUSE.write_header(sheet, HOUSE_AT);
    sheet[3] = house.profile;
    sheet[4] = house.hops.0 as u8;
    write_number(sheet, 5, 4, house.wanted.0);
    write_number(sheet, 9, 2, house.interval.0);
    write_number(sheet, 11, 4, house.quota.0);
    write_rates_and_packets(sheet, house);
}

// R, L, X and C.
fn write_rates_and_packets(sheet: &mut [u8], house: House)
    requires { 25 ≤ length sheet.old }
    ensures { sheet.new ≡ sets sheet.old 15 (bytes_of 4 house.rate.0 ++ bytes_of 2 house.own_packet.0 ++ bytes_of 2 house.longest_packet.0 ++ bytes_of 2 house.link_rate.0) }
{
    write_number(sheet, 15, 4, house.rate.0);
    write_number(sheet, 19, 2, house.own_packet.0);
    write_number(sheet, 21, 2, house.longest_packet.0);
    write_number(sheet, 23, 2, house.link_rate.0);
}
