// Numbers of a morning, each with what it must be: the value and the place behind it, or the refusal.
// Bytes and a place stay two parameters, here and in all readers: a cursor would carry the same two, and each clause would have to add that its bytes stay.
ghost use Rattle.std.specs.Prelude.{◌<◌, ◌≤◌, ◌≢◌};
ghost use Rattle.mornings.specs.Verdict.{Number, End};
ghost use Rattle.mornings.specs.Judgement.{Reads, ReadsTested, Passes, Any, HouseRead, RateRead};

use crate::{Refusal, Start};
use octets::Word;

// A number, which a test has to find right.
fn number<T: Word, F: FnOnce(T) -> bool>(
    bytes: &[u8],
    at: usize,
    right: F,
) -> Result<(T, usize), Refusal>
    requires { F.IsAlwaysCallable right }
    ensures { ReadsTested T.WIDTH T.of_code (F.post right) bytes.now at result }
{
    let width = T::WIDTH;
    if bytes.len() < width || at > bytes.len() - width {
        return Err(Refusal::NoMorning(bytes.len()));
    }
    let v = T::read(bytes, at);
    if right(v) {
        Ok((v, at + width))
    } else {
        Err(Refusal::NoMorning(at))
    }
}

// A number of two bytes.
pub(crate) fn short(bytes: &[u8], at: usize) -> Result<(u16, usize), Refusal>
    ensures { Reads (Number 2 Any) bytes.now at result }
{
    number(bytes, at, |_v: u16| true)
}

// A number of two bytes, at most a limit.
pub(crate) fn short_up_to(bytes: &[u8], at: usize, limit: u16) -> Result<(u16, usize), Refusal>
    ensures { Reads (Number 2 (λ n. n ≤ limit)) bytes.now at result }
{
    number(bytes, at, |v: u16| v <= limit)
}

// A house.
pub(crate) fn house(bytes: &[u8], at: usize, start: Start) -> Result<(u16, usize), Refusal>
    ensures { Reads (HouseRead start) bytes.now at result }
{
    number(bytes, at, |v: u16| v < start.houses)
}

// Another house.
pub(crate) fn other_house(
    bytes: &[u8],
    at: usize,
    start: Start,
    holder: u16,
) -> Result<(u16, usize), Refusal>
    ensures { Reads (Number 2 (λ n. (n < start.houses) × (n ≢ holder))) bytes.now at result }
{
    number(bytes, at, |v: u16| v < start.houses && v != holder)
}

// A number of four bytes, from a least one on and below 65,536.
pub(crate) fn long_from(bytes: &[u8], at: usize, least: u32) -> Result<(u32, usize), Refusal>
    ensures { Reads (Number 4 (λ d. (least ≤ d) × (d < 65536))) bytes.now at result }
{
    number(bytes, at, |v: u32| least <= v && v < 65536)
}

// A number of one byte, at most a limit.
pub(crate) fn byte_up_to(bytes: &[u8], at: usize, limit: u8) -> Result<(u8, usize), Refusal>
    ensures { Reads (Number 1 (λ n. n ≤ limit)) bytes.now at result }
{
    number(bytes, at, |v: u8| v <= limit)
}

// A rate.
pub(crate) fn rate(bytes: &[u8], at: usize) -> Result<(i64, usize), Refusal>
    ensures { Reads RateRead bytes.now at result }
{
    number(bytes, at, |v: i64| v.unsigned_abs() <= 1_000_000_000)
}

// Nothing more.
pub(crate) fn end(bytes: &[u8], at: usize) -> Result<usize, Refusal>
    ensures { Passes End bytes.now at result }
{
    if at < bytes.len() {
        return Err(Refusal::NoMorning(at));
    }
    Ok(bytes.len())
}
