// The house over lent memory: it takes or refuses a morning, keeps of each deal only what is left of it, and writes the payments of the day.
#![tactic(auto)]

ghost use Rattle.std.specs.Prelude.{◌≡◌, ◌*◌, ◌≤◌, length};
ghost use Rattle.mornings.specs.Verdict.{fault};
ghost use Rattle.settlement.specs.Remains.{refusal_of, new_house, memory, Takes};
ghost use Rattle.settlement.specs.Runs.{OneAnswer, NoneRemains, AnythingElse, PaysTheSame, RunsPay, RunsLater, RunsWithin, ModelPays};
ghost use Rattle.settlement.specs.Settled.{Settles};
ghost use Rattle.settlement.specs.declared.NotTaken.TheVariants.{Refused, TooShort};

mod counting;
mod directory;
mod netting;
pub mod opening;
mod order;
mod payments;
pub mod room;
mod walk;

use fixings::keep_rates;
use mornings::{Refusal, Start, judge_morning};
use opening::open_deals;
use order::collect_waking;
use room::{Lengths, Lent, measure};
use std::fmt;
use texts::stages::Stage;
use walk::walk;

// The few numbers of a house: its start, how many mornings it has taken, and how many deals it has. All else that it keeps is lent.
#[derive(Clone, Copy)]
pub struct House {
    pub start: Start,
    pub day: u32,
    pub deals: u32,
}

// Why a morning is not taken: its bytes are refused, or one of the lent slices is too short. A history has an enum of its own, since what else may be wanting there is memory: one for both would let each answer what it never can.
#[derive(Clone, Copy)]
pub enum NotTaken {
    Refused(Refusal),
    TooShort(Lent),
}

// The number of a refusal, from 1 to 5, and its place: the rules name refusals by number.
pub fn numbered(e: NotTaken) -> (u8, usize)
    ensures { refusal_of e ≡ fault result.0 result.1 }
{
    match e {
        NotTaken::Refused(refusal) => mornings::numbered(refusal),
        NotTaken::TooShort(slice) => (5, slice.number()),
    }
}

impl fmt::Display for NotTaken {
    fn fmt<W: fmt::Write>(&self, f: &mut fmt::Formatter<W>) -> fmt::Result {
        let (number, place) = numbered(*self);
        write!(f, "refused {number} at {place}")
    }
}

impl From<Refusal> for NotTaken {
    ghost from_gives = { λ r e. e ≡ Refused r };

    fn from(r: Refusal) -> NotTaken {
        NotTaken::Refused(r)
    }
}

impl From<Lent> for NotTaken {
    ghost from_gives = { λ s e. e ≡ TooShort s };

    fn from(s: Lent) -> NotTaken {
        NotTaken::TooShort(s)
    }
}

// The morning of day t for the first n deals: each that wakes has its morning, and what each pair comes to is paid; how many payments there are. All memory is lent, so that how many deals and currencies there are stands beside it.
pub fn settle(
    deals: &mut [u8],
    n: usize,
    t: u32,
    currencies: usize,
    work: &mut [u64],
    payments: &mut [u8],
) -> usize
    requires deals { 16384 * n ≤ length deals.old }
    requires few { n ≤ 65536 }
    requires work { n ≤ length work.old }
    requires currencies { currencies ≤ 64 }
    ensures { Settles t n currencies deals.old payments.old result deals.new payments.new }
{
    let count = collect_waking(deals, n, t, work);
    let words = &mut work[..count];
    words.sort_unstable();
    walk(deals, t, words, currencies, payments)
}

impl House {
    // A house on which no morning has come.
    pub fn new(start: Start) -> House
        ensures { result ≡ new_house start }
    {
        House {
            start,
            day: 0,
            deals: 0,
        }
    }

    // Takes a morning, and writes what is paid on its day to the front of payments; how many payments there are. Where it is refused nothing lent has changed.
    // Each slice is lent by itself, since each grows by itself as deals come.
    pub fn take(
        &mut self,
        bytes: &[u8],
        deals: &mut [u8],
        rates: &mut [i64],
        work: &mut [u64],
        payments: &mut [u8],
        sums: &[u8],
    ) -> Result<usize, NotTaken>
        ensures { Takes (memory self.old deals.old rates.old work.old payments.old) sums.now bytes.now result (memory self.new deals.new rates.new work.new payments.new) }
    {
        let House {
            start,
            day,
            deals: so_far,
        } = *self;
        let parts = judge_morning(bytes, start, day, so_far, Stage::Thin)?;
        let lent = Lengths {
            deals: deals.len(),
            rates: rates.len(),
            work: work.len(),
            payments: payments.len(),
            sums: sums.len(),
        };
        let first = so_far as usize;
        let n = measure(start, deals, first, bytes, parts.deals, lent)?;
        open_deals(deals, first, bytes, parts.deals, start);
        keep_rates(rates, start.rates, day, bytes, parts.rates_at);
        let currencies = (start.currencies as usize).min(64);
        let count = settle(deals, n, day, currencies, work, payments);
        self.day = day.saturating_add(1);
        self.deals = n as u32;
        Ok(count)
    }
}

// What is true of whole runs, whatever mornings come and are refused: the memory holds what is left of those taken, and each day's payment bytes say what the meaning says.
pub fn runs_stand()
    ensures one { OneAnswer }
    ensures none { NoneRemains }
    ensures other { AnythingElse }
    ensures same { PaysTheSame }
    ensures pay { RunsPay }
    ensures later { RunsLater }
    ensures within { RunsWithin }
    ensures model { ModelPays }
{}
