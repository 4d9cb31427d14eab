// Starts, mornings and payments in bytes: what they stand for, or where they are first in fault.
#![tactic(auto)]

ghost use Rattle.std.specs.Prelude.{◌≡◌};
ghost use Rattle.mornings.specs.Verdict.{fault};
ghost use Rattle.texts.specs.Bounds.{refusal_number, refusal_place};
ghost use Rattle.mornings.specs.Laws.{OneVerdict, HandedOut, Walked, WrittenTaken, EveryTaken, PiecesStand, PiecesJudged, TakenFits, NeverSame, FrontToBack};
ghost use Rattle.mornings.specs.Judgement.{fault_of, StartJudged, MorningJudged};

mod head;
mod numbers;
pub mod pairs;
mod parts;
pub mod payments;
pub mod places;
pub mod writers;

use numbers::{byte_up_to, end, short, short_up_to};
use parts::{Today, choices, deals, rates, too_many};
use std::fmt;
use texts::reading::TextRefusal;
use texts::stages::Stage;

// Why bytes are refused, each with the place of the byte in fault: no contract's text; a limit of contracts passed; no start or morning; a deal or a morning too many.
#[derive(Clone, Copy)]
pub enum Refusal {
    NoContract(usize),
    Limit(usize),
    NoMorning(usize),
    TooMany(usize),
}

// The number of a refusal, from 1 to 4, and its place: the rules name refusals by number.
pub fn numbered(e: Refusal) -> (u8, usize)
    ensures { fault_of e ≡ fault result.0 result.1 }
{
    match e {
        Refusal::NoContract(p) => (1, p),
        Refusal::Limit(p) => (2, p),
        Refusal::NoMorning(p) => (3, p),
        Refusal::TooMany(p) => (4, p),
    }
}

impl fmt::Display for Refusal {
    fn fmt<W: fmt::Write>(&self, f: &mut fmt::Formatter<W>) -> fmt::Result {
        let (number, place) = numbered(*self);
        write!(f, "refused {number} at {place}")
    }
}

// A refusal of a text is one of the morning that it stands in.
impl From<TextRefusal> for Refusal {
    ghost from_gives = { λ e r. fault_of r ≡ fault (refusal_number e) (refusal_place e) };

    fn from(e: TextRefusal) -> Refusal {
        match e {
            TextRefusal::NoContract(p) => Refusal::NoContract(p),
            TextRefusal::Limit(p) => Refusal::Limit(p),
        }
    }
}

// How many houses, rates and currencies there are.
#[derive(Clone, Copy, Default)]
pub struct Start {
    pub houses: u16,
    pub rates: u16,
    pub currencies: u8,
}

// Where the parts of a morning stand: how many deals, from byte 2 on; where its rates begin; where its choices begin, and how many.
#[derive(Clone, Copy)]
pub struct Ends {
    pub deals: u16,
    pub rates_at: usize,
    pub choices_at: usize,
    pub choices: u16,
}

// A start, from its bytes.
pub fn judge_start(bytes: &[u8]) -> Result<Start, Refusal>
    ensures { StartJudged bytes.now result }
{
    let (houses, rates_at) = short_up_to(bytes, 0, 1024)?;
    let (rates, currencies_at) = short_up_to(bytes, rates_at, 256)?;
    let (currencies, to) = byte_up_to(bytes, currencies_at, 64)?;
    let _end = end(bytes, to)?;
    Ok(Start {
        houses,
        rates,
        currencies,
    })
}

// A morning in its bytes, on a day and with so many deals before it, by a house that is built so far: where its parts stand.
pub fn judge_morning(
    bytes: &[u8],
    start: Start,
    day: u32,
    so_far: u32,
    stage: Stage,
) -> Result<Ends, Refusal>
    ensures { MorningJudged stage start day so_far bytes.now result }
{
    if day >= 65536 {
        return Err(too_many(short(bytes, 0), 0));
    }
    let (n, deals_at) = short(bytes, 0)?;
    let today = Today { start, day, stage };
    let rates_at = deals(bytes, deals_at, n, today, so_far)?;
    let rates_end = rates(bytes, rates_at, start.rates)?;
    let (m, choices_at) = short(bytes, rates_end)?;
    let to = choices(bytes, choices_at, m)?;
    let _end = end(bytes, to)?;
    Ok(Ends {
        deals: n,
        rates_at,
        choices_at,
        choices: m,
    })
}

// What is true of starts and mornings in bytes.
pub fn laws_stand()
    ensures one { OneVerdict }
    ensures handed { HandedOut }
    ensures walked { Walked }
    ensures written { WrittenTaken }
    ensures every { EveryTaken }
    ensures pieces { PiecesStand }
    ensures judged { PiecesJudged }
    ensures bounds { TakenFits }
    ensures apart { NeverSame }
    ensures front { FrontToBack }
{}
