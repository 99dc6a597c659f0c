// The workloads that bench/ times: each makes its calls one behind the other, and answers a checksum of their answers.

#![tactic(auto)]

ghost use Rattle.std.specs.Prelude.{◌+◌, ◌≤◌, length};

use quantity::refusal::Refusal;

pub mod meters;
pub mod paths;
pub mod sheets;
pub mod slots;

// The parts of a list that are of one width, one behind the other; behind the last the first again.
// Not chunks_exact(width).cycle(): that has no part where the list is shorter, and stops at a width of 0.
#[derive(Drop)]
struct Parts<'a, T> {
    list: &'a [T],
    width: usize,
    at: usize,
    ghost inside: { at + width ≤ length list.now },
}

impl<'a, T> Parts<'a, T> {
    // A width that is more than the list has becomes the list's length.
    fn new(list: &'a [T], width: usize) -> Parts<'a, T> {
        Parts {
            list,
            width: width.min(list.len()),
            at: 0,
        }
    }

    // The part that comes next.
    fn part(&mut self) -> &'a [T] {
        let end = self.at + self.width;
        let part = &self.list[self.at..end];
        let left = self.list.len() - end;
        self.at = if self.width <= left { end } else { 0 };
        part
    }
}

impl<'a, T> Iterator for Parts<'a, T> {
    type Item = &'a [T];

    fn next(&mut self) -> Option<&'a [T]> {
        Some(self.part())
    }
}

// A checksum with one more number.
fn mix(sum: u64, number: u64) -> u64 {
    sum.rotate_left(5).wrapping_add(number)
}

fn mix_pair(sum: u64, first: u32, second: u32) -> u64 {
    mix(mix(sum, u64::from(first)), u64::from(second))
}

fn mix_refusal(sum: u64, why: Refusal) -> u64 {
    mix(mix(sum, u64::from(why.number())), why.place() as u64)
}

// An answer: the refusal, or what is mixed of the value. By reference: by value the larger ones are copied once more.
fn mix_answer<T, F: FnOnce(u64, &T) -> u64>(sum: u64, answer: &Result<T, Refusal>, mixed: F) -> u64
    requires { F.IsAlwaysCallable mixed }
{
    match answer {
        Err(why) => mix_refusal(sum, *why),
        Ok(value) => mixed(sum, value),
    }
}
