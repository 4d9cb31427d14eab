// The parts of a morning, judged one after the other: the place behind each, or the refusal.
ghost use Rattle.std.specs.Prelude.{◌≡◌, ◌+◌, ◌<◌, ◌≤◌, length, MatchBool, MatchResult, ◌==◌};
ghost use Rattle.texts.specs.Bounds.{refusal_number, refusal_place};
ghost use Rattle.mornings.specs.Verdict.{fault, refused, Row};
ghost use Rattle.mornings.specs.Judgement.{fault_of, Passes, RowRuns, TextRead, DealFields, DealRead, RateRead, StepRead, ChoiceRead};

use crate::numbers::{byte_up_to, house, long_from, other_house, rate, short};
use crate::{Refusal, Start, numbered};
use texts::reader::Reading;
use texts::reading::{TextRefusal, read_part};
use texts::stages::{Stage, built};

// What deals are judged by: the start, the day, and how far the house is built.
#[derive(Clone, Copy)]
pub struct Today {
    pub start: Start,
    pub day: u32,
    pub stage: Stage,
}

// So many parts in a row: each is read by a function, from where the one before ended.
fn row<F: Fn(usize) -> Result<usize, Refusal>>(at: usize, n: u16, part: F) -> Result<usize, Refusal>
    requires { F.IsAlwaysCallable part }
    ensures { RowRuns (λ _ i r. F.post part i r) n 0 at result }
{
    let mut to = at;
    for _k in 0..n {
        to = part(to)?;
    }
    Ok(to)
}

// A step of a way.
fn step(bytes: &[u8], at: usize) -> Result<usize, Refusal>
    ensures { Passes StepRead bytes.now at result }
{
    Ok(byte_up_to(bytes, at, 1)?.1)
}

// A choice: the number of a deal, and a way.
fn choice(bytes: &[u8], at: usize) -> Result<usize, Refusal>
    ensures { Passes ChoiceRead bytes.now at result }
{
    let (_deal, length_at) = long_from(bytes, at, 0)?;
    let (n, steps_at) = byte_up_to(bytes, length_at, 64)?;
    row(steps_at, u16::from(n), |to| step(bytes, to))
}

// So many choices in a row.
pub(crate) fn choices(bytes: &[u8], at: usize, n: u16) -> Result<usize, Refusal>
    ensures { Passes (Row n (λ _. ChoiceRead) 0) bytes.now at result }
{
    row(at, n, |to| choice(bytes, to))
}

// All rates.
pub(crate) fn rates(bytes: &[u8], at: usize, n: u16) -> Result<usize, Refusal>
    ensures { Passes (Row n (λ _. RateRead) 0) bytes.now at result }
{
    row(at, n, |to| Ok(rate(bytes, to)?.1))
}

// The refusal of a text that passes the end. It says each case: behind `_` nothing would be known of what was read. Here and below `read` is lent on beside `today`: a struct of both would have each function promise that it lends the same reading.
fn cut_text(bytes: &[u8], at: usize, n: usize, today: Today, read: &mut Reading) -> Refusal
    requires within { at ≤ length bytes.now }
    requires small { n ≤ 8192 }
    requires past { length bytes.now < at + n }
    ensures { TextRead today.stage today.start n bytes.now at (refused (fault_of result)) }
{
    let start = today.start;
    match read_part(bytes, at, bytes.len(), start.rates, start.currencies, read) {
        Ok(()) => Refusal::NoMorning(bytes.len()),
        Err(TextRefusal::Limit(_p)) => Refusal::NoMorning(bytes.len()),
        Err(TextRefusal::NoContract(p)) => {
            if p < bytes.len() {
                Refusal::NoContract(p)
            } else {
                Refusal::NoMorning(bytes.len())
            }
        }
    }
}

// A contract in a text of n bytes.
fn text(
    bytes: &[u8],
    at: usize,
    n: usize,
    today: Today,
    read: &mut Reading,
) -> Result<usize, Refusal>
    requires { at ≤ length bytes.now }
    ensures { Passes (TextRead today.stage today.start n) bytes.now at result }
{
    if n > 8192 {
        return Err(Refusal::Limit(at));
    }
    if n > bytes.len() - at {
        return Err(cut_text(bytes, at, n, today, read));
    }
    let start = today.start;
    read_part(bytes, at, at + n, start.rates, start.currencies, read)?;
    if !built(&read.tree, today.stage) {
        return Err(Refusal::NoContract(at));
    }
    Ok(at + n)
}

// A deal that has a number.
fn deal_fields(bytes: &[u8], at: usize, today: Today, read: &mut Reading) -> Result<usize, Refusal>
    ensures { Passes (DealFields today.stage today.start today.day) bytes.now at result }
{
    let (holder, other_at) = house(bytes, at, today.start)?;
    let (_other, day_at) = other_house(bytes, other_at, today.start, holder)?;
    let (_day, length_at) = long_from(bytes, day_at, today.day)?;
    let (n, text_at) = short(bytes, length_at)?;
    text(bytes, text_at, n as usize, today, read)
}

// The refusal of what comes too many, by what was read of its first part.
pub(crate) fn too_many(first: Result<(u16, usize), Refusal>, at: usize) -> Refusal
    ensures { MatchResult first (λ _. result ≡ Refusal.TooMany at) (λ e. MatchBool ((fault_of e).place == at) (result ≡ e) (result ≡ Refusal.TooMany at)) }
{
    match first {
        Err(e) if numbered(e).1 == at => e,
        _ => Refusal::TooMany(at),
    }
}

// Deal number `number`.
fn deal(
    bytes: &[u8],
    at: usize,
    today: Today,
    number: usize,
    read: &mut Reading,
) -> Result<usize, Refusal>
    ensures { Passes (DealRead today.stage today.start today.day number) bytes.now at result }
{
    if number >= 65536 {
        return Err(too_many(house(bytes, at, today.start), at));
    }
    deal_fields(bytes, at, today, read)
}

// So many deals in a row, numbered behind those so far; one reading serves all of their texts. So this is a loop and no `row`: a closure that is lent it changes with each call, and nothing would be known of the bytes that it holds.
pub(crate) fn deals(
    bytes: &[u8],
    at: usize,
    n: u16,
    today: Today,
    so_far: u32,
) -> Result<usize, Refusal>
    ensures { Passes (Row n (DealRead today.stage today.start today.day) so_far) bytes.now at result }
{
    let mut read = Reading::new();
    let mut to = at;
    for k in 0..n {
        let number = so_far as usize + k as usize;
        to = deal(bytes, to, today, number, &mut read)?;
    }
    Ok(to)
}
