// The choices of a day, in the kept bytes, and ways as numbers.
ghost use Rattle.replay.specs.Choices.{one_more, way_of, stepped, choice_in, is_for, chosen_from, chosen_on};
ghost use Rattle.replay.specs.Days.{bytes_of};
ghost use Rattle.std.specs.Prelude.{◌≡◌};

use crate::days::Days;
use mornings::places::choice_at;

// The way to a part: a bit a step, as far as 64 bits hold them, and how many steps there are.
#[derive(Clone, Copy, Default, PartialEq, Eq)]
pub struct Way {
    pub bits: u64,
    pub len: usize,
}

// A choice: the number of its deal, its way, and where the next choice stands.
#[derive(Clone, Copy)]
struct ChoiceIn {
    deal: u32,
    way: Way,
    next: usize,
}

// A bit more, as far as 64 bits hold it.
fn one_more(bits: u64, step: u8) -> u64
    ensures { result ≡ one_more bits step }
{
    bits.wrapping_mul(2).wrapping_add(u64::from(step))
}

impl Way {
    // A step further.
    pub(crate) fn step(self, step: u8) -> Way
        ensures { result ≡ stepped self step }
    {
        Way {
            bits: one_more(self.bits, step),
            len: self.len.saturating_add(1),
        }
    }

    // The way of some steps. The bits alone go from step to step: every choice is read at each deal that looks for one, and a length that is counted with them takes as long again.
    fn of(steps: &[u8]) -> Way
        ensures { result ≡ way_of steps.now }
    {
        Way {
            bits: steps.iter().fold(0, |bits, step| one_more(bits, *step)),
            len: steps.len(),
        }
    }
}

// The choice at a place, if there is a whole one.
fn choice_in(bytes: &[u8], at: usize) -> Option<ChoiceIn>
    ensures { result ≡ choice_in bytes.now at }
{
    if at > bytes.len().checked_sub(5)? {
        return None;
    }
    let choice = choice_at(bytes, at);
    let steps = bytes.get(choice.way_at..choice.way_end)?;
    Some(ChoiceIn {
        deal: choice.deal,
        way: Way::of(steps),
        next: choice.way_end,
    })
}

// Whether a choice is for a part of deal c, by the way to it: two of its fields, beside the place of the next choice. Here and below they come apart, as callers have them: the deal's number stands in `Deal`, the way in the part.
fn is_for(choice: ChoiceIn, c: u32, way: Way) -> bool
    ensures { result ≡ is_for choice c way }
{
    choice.deal == c && choice.way == way
}

// Whether a part of deal c, by the way to it, is among so many choices from a place on. What it looks for is yes or no, so a choice that is cut ends it with a no, and not by `?`.
fn chosen_in(bytes: &[u8], from: usize, count: usize, c: u32, way: Way) -> bool
    ensures { result ≡ chosen_from bytes.now count from c way }
{
    let mut at = from;
    for _ in 0..count {
        let Some(choice) = choice_in(bytes, at) else {
            return false;
        };
        if is_for(choice, c, way) {
            return true;
        }
        at = choice.next;
    }
    false
}

impl<'a> Days<'a> {
    // The same, among the choices of day t; on a day that is not known nothing is chosen.
    pub(crate) fn chosen_on(self, t: usize, c: u32, way: Way) -> bool
        ensures { result ≡ chosen_on self.entry.kept.now self.entry.days.now c t way }
    {
        let Some(day) = self.days.get(t) else {
            return false;
        };
        let count = day.parts.choices as usize;
        chosen_in(self.bytes_of(*day), day.parts.choices_at, count, c, way)
    }
}
