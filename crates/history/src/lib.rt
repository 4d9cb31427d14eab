// The mornings that were taken, kept on the heap, and what is paid on the last of them.
#![tactic(auto)]

ghost use Rattle.std.specs.Prelude.{◌≡◌, [], OnOk, IfErr};
ghost use Rattle.history.specs.History.{Same, HasRoom, Stands, Takes, start_of, payment_bytes};
ghost use Rattle.history.specs.declared.NotTaken.TheVariants.{OutOfMemory, Refused};
ghost use Rattle.mornings.specs.Written.{StartFits};

use mornings::payments::{PAYMENT, read_payment};
use mornings::{Refusal, Start, judge_morning};
use replay::days::DayAt;
use replay::listing::DealIn;
use replay::settle::pay_day;
use std::alloc::{AllocError, AllocFailed, Global};
use std::fmt;
use texts::stages::Stage;

// The bytes of the mornings taken, one behind the other, where each stands, and how many deals they have; and room to work in.
#[derive(Drop)]
pub struct History {
    start: Start,
    kept: Vec<u8>,
    days: Vec<DayAt>,
    so_far: u32,
    deals: Vec<DealIn>,
    keys: Vec<u64>,
    payments: Vec<u8>,
}

// Why a morning is not taken: it is refused, or memory has run out.
#[derive(Clone, Copy)]
pub enum NotTaken {
    Refused(Refusal),
    OutOfMemory,
}

impl fmt::Display for NotTaken {
    fn fmt<W: fmt::Write>(&self, f: &mut fmt::Formatter<W>) -> fmt::Result {
        match self {
            NotTaken::Refused(refusal) => write!(f, "{refusal}"),
            NotTaken::OutOfMemory => write!(f, "memory allocation failed"),
        }
    }
}

impl From<AllocError> for NotTaken {
    ghost from_gives = { λ _ e. e ≡ OutOfMemory };

    fn from(_e: AllocError) -> NotTaken {
        NotTaken::OutOfMemory
    }
}

impl<T: Drop> From<AllocFailed<T>> for NotTaken {
    ghost from_gives = { λ _ e. e ≡ OutOfMemory };

    fn from(_e: AllocFailed<T>) -> NotTaken {
        NotTaken::OutOfMemory
    }
}

impl From<Refusal> for NotTaken {
    ghost from_gives = { λ r e. e ≡ Refused r };

    fn from(r: Refusal) -> NotTaken {
        NotTaken::Refused(r)
    }
}

impl History {
    // No morning yet.
    pub fn new(alloc: Global, start: Start) -> History
        ensures start { start_of result ≡ start }
        ensures none { StartFits start → Stands result [] }
    {
        History {
            start,
            kept: Vec::new(alloc),
            days: Vec::new(alloc),
            so_far: 0,
            deals: Vec::new(alloc),
            keys: Vec::new(alloc),
            payments: Vec::new(alloc),
        }
    }

    // Room for a morning of so many bytes, and for so many deals more. The mornings taken stay.
    fn make_room(&mut self, bytes: usize, deals: u16) -> Result<(), NotTaken>
        ensures same { Same self.old self.new }
        ensures room { OnOk result (HasRoom bytes deals self.new) }
        ensures full { IfErr result (λ e. e ≡ OutOfMemory) }
    {
        let n = self.so_far as usize + deals as usize;
        self.kept.reserve(bytes)?;
        self.days.reserve(1)?;
        self.deals.resize(n, DealIn::default())?;
        self.keys.resize(n, 0)?;
        self.payments
            .resize(PAYMENT * (n * self.start.currencies as usize), 0)?;
        Ok(())
    }

    // Takes a morning, and works out what is paid on its day. Where it is refused, or memory runs out, the mornings taken are those of before.
    pub fn take(&mut self, bytes: &[u8]) -> Result<(), NotTaken>
        ensures { Takes self.old bytes.now result self.new }
    {
        let day = self.days.len().min(65536) as u32;
        let parts = judge_morning(bytes, self.start, day, self.so_far, Stage::All)?;
        self.make_room(bytes.len(), parts.deals)?;
        let from = self.kept.len();
        self.kept.extend_from_slice(bytes)?;
        let to = self.kept.len();
        self.days.push(DayAt { from, to, parts })?;
        self.so_far = self.so_far.saturating_add(u32::from(parts.deals));
        // There is room for all that is paid, so the 0 of a slice too short is never taken.
        let count = pay_day(
            self.kept.as_slice(),
            self.days.as_slice(),
            self.start,
            self.deals.as_mut_slice(),
            self.keys.as_mut_slice(),
            self.payments.as_mut_slice(),
        )
        .unwrap_or(0);
        self.payments.truncate(count.saturating_mul(PAYMENT));
        Ok(())
    }

    // The payments of the last morning taken, 13 bytes each, in order; of no account once memory has run out.
    pub fn payments(&self) -> &[u8]
        ensures { result.now ≡ payment_bytes self.now }
    {
        self.payments.as_slice()
    }
}

// The payments of the last morning taken, one to a line, each with its day.
impl fmt::Display for History {
    fn fmt<W: fmt::Write>(&self, f: &mut fmt::Formatter<W>) -> fmt::Result {
        let day = self.days.len().saturating_sub(1);
        for bytes in self.payments().chunks_exact(PAYMENT) {
            let payment = read_payment(bytes, 0);
            writeln!(f, "day {day} {payment}")?;
        }
        Ok(())
    }
}
