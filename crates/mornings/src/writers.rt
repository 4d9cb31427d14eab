// Writes a start, and a morning piece by piece, into lent bytes. Each hands back the place behind what it wrote; all other bytes stay as they are. As in readers, the bytes are lent and the place is handed on.
ghost use Rattle.std.specs.Prelude.{◌+◌, ◌≤◌, length};
ghost use Rattle.octets.specs.Octets.{octets_of};
ghost use Rattle.mornings.specs.Written.{start_bytes, deal_octets, rate_octets, choice_octets, Wrote};

use crate::Start;
use crate::head::write_head;
use octets::Word;

// A start.
pub fn write_start(out: &mut [u8], at: usize, start: Start) -> usize
    requires { at + 5 ≤ length out.old }
    ensures { Wrote out.old at (start_bytes start) out.new result }
{
    write_head(out, at, start.houses, start.rates, start.currencies);
    at + 5
}

// How many deals or choices follow.
pub fn write_count(out: &mut [u8], at: usize, n: u16) -> usize
    requires { at + 2 ≤ length out.old }
    ensures { Wrote out.old at (octets_of 2 n) out.new result }
{
    n.write(out, at);
    at + 2
}

// A deal: holder, other, day, and its text.
pub fn write_deal(
    out: &mut [u8],
    at: usize,
    holder: u16,
    other: u16,
    day: u32,
    text: &[u8],
) -> usize
    requires room { at + 10 + length text.now ≤ length out.old }
    requires short { length text.now ≤ 8192 }
    ensures { Wrote out.old at (deal_octets holder other day text.now) out.new result }
{
    holder.write(out, at);
    other.write(out, at + 2);
    day.write(out, at + 4);
    (text.len() as u16).write(out, at + 8);
    out[at + 10..at + 10 + text.len()].copy_from_slice(text);
    at + 10 + text.len()
}

// A rate.
pub fn write_rate(out: &mut [u8], at: usize, rate: i64) -> usize
    requires { at + 8 ≤ length out.old }
    ensures { Wrote out.old at (rate_octets rate) out.new result }
{
    rate.write(out, at);
    at + 8
}

// A choice: the number of a deal, and a way.
pub fn write_choice(out: &mut [u8], at: usize, deal: u32, way: &[u8]) -> usize
    requires room { at + 5 + length way.now ≤ length out.old }
    requires short { length way.now ≤ 64 }
    ensures { Wrote out.old at (choice_octets deal way.now) out.new result }
{
    deal.write(out, at);
    out[at + 4] = way.len() as u8;
    out[at + 5..at + 5 + way.len()].copy_from_slice(way);
    at + 5 + way.len()
}
