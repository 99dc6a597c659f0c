// A line that is a whole path: `profile P hops N wanted N m N Q N`, with `R N` in profiles 1 and 2 and `L N X N C N` in profile 2.

use crate::fault::PathFault;
use crate::numbers::{behind_label, number_of, quantity_of};
use console::fault::Fault;
use quantity::{Packet, Rate};
use sheet::House;

// The labels of the numbers behind the profile's own.
const LABELS: [&[u8]; 8] = [b"hops", b"wanted", b"m", b"Q", b"R", b"L", b"X", b"C"];

// The number of the profile says how many follow.
pub(crate) fn house_of(text: Option<&[u8]>) -> Result<House, PathFault> {
    let (profile, rest) = number_of(text)?;
    let mut numbers = [0; 8];
    let (profile, count) = match profile {
        0 => (0, 4),
        1 => (1, 5),
        2 => (2, 8),
        _ => return Err(PathFault::OutOfRange("profile out of range")),
    };
    labelled(rest, &mut numbers[..count])?;
    checked(profile, numbers)
}

// Puts the numbers of a text, each behind its label, into their places.
fn labelled(text: &[u8], numbers: &mut [u64]) -> Result<(), PathFault> {
    let mut rest = text;
    let none = PathFault::Line(Fault::TooFewNumbers);
    for (label, number) in LABELS.iter().zip(numbers) {
        let behind = behind_label(rest, label, none, PathFault::UnknownWord)?;
        (*number, rest) = number_of(behind)?;
    }
    if rest.is_empty() {
        Ok(())
    } else {
        Err(PathFault::Line(Fault::TooManyNumbers))
    }
}

// Those that the profile does not use are 0. Where the others are in their ranges, the length of its delayer is left.
fn checked(profile: u8, numbers: [u64; 8]) -> Result<House, PathFault> {
    let [hops, wanted, interval, quota, rate, own, longest, link_rate] = numbers;
    let mut house = House {
        profile,
        hops: quantity_of(hops, "hops out of range")?,
        wanted: quantity_of(wanted, "delay wanted out of range")?,
        interval: quantity_of(interval, "interval out of range")?,
        quota: quantity_of(quota, "quota out of range")?,
        rate: Rate(0),
        own_packet: Packet(0),
        longest_packet: Packet(0),
        link_rate: Rate(0),
    };
    if 1 <= profile {
        house.rate = quantity_of(rate, "rate out of range")?;
    }
    if profile == 2 {
        house.own_packet = quantity_of(own, "packet out of range")?;
        house.longest_packet = quantity_of(longest, "packet out of range")?;
        house.link_rate = quantity_of(link_rate, "link rate out of range")?;
    }
    if house.in_range() {
        Ok(house)
    } else {
        Err(PathFault::DelayerTooLong)
    }
}
