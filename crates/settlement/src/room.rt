// How long the lent slices have to be, and which is the first that is too short.
ghost use Rattle.std.specs.Prelude.{◌≡◌, ◌≤◌, length};
ghost use Rattle.settlement.specs.Room.{slice_number, Measures};

use crate::counting::{PAIRS, count_pairs};
use fixings::DAYS;
use mornings::Start;
use mornings::payments::PAYMENT;

// A house has at most so many deals.
pub const DEALS: usize = 65536;

// The bytes for each of them.
pub const SLOT: usize = 16384;

// 1 MiB of work, in words of eight bytes.
pub const WORK: usize = 131072;

// The lent slices, in their order.
#[derive(Clone, Copy)]
pub enum Lent {
    Deals,
    Rates,
    Work,
    Payments,
    Sums,
}

impl Lent {
    // Its number among them, by which the rules name it: a match, so that it doesn't hang on the order in which they stand here.
    pub(crate) fn number(self) -> usize
        ensures { result ≡ slice_number self }
    {
        match self {
            Lent::Deals => 0,
            Lent::Rates => 1,
            Lent::Work => 2,
            Lent::Payments => 3,
            Lent::Sums => 4,
        }
    }
}

// How long each of them is: deals, payments and sums in bytes, rates and work in words of eight.
#[derive(Clone, Copy)]
pub(crate) struct Lengths {
    pub deals: usize,
    pub rates: usize,
    pub work: usize,
    pub payments: usize,
    pub sums: usize,
}

// How many deals there are with a morning's, if the slices are long enough for them; else the first that is not. None is for more deals than a house may have.
// The bytes of deals and morning stay apart from the numbers that go with them, here, in `count_pairs` and in `open_deals`: that bytes are below 256 is known of a lent slice, but not of one within a struct.
// Pairs are counted only where there is not room for each deal to be of a pair of its own.
pub(crate) fn measure(
    start: Start,
    deals: &[u8],
    first: usize,
    bytes: &[u8],
    new: u16,
    lent: Lengths,
) -> Result<usize, Lent>
    requires is { lent.deals ≡ length deals.now }
    requires few { first ≤ 4294967295 }
    ensures { Measures start deals.now first bytes.now new lent result }
{
    let n = first + new as usize;
    let currencies = start.currencies as usize;
    if n > DEALS || lent.deals < SLOT * n {
        return Err(Lent::Deals);
    }
    if lent.rates < DAYS * start.rates as usize {
        return Err(Lent::Rates);
    }
    if lent.work < WORK {
        return Err(Lent::Work);
    }
    if lent.payments.min(lent.sums) >= PAYMENT * (n * currencies) {
        return Ok(n);
    }
    let room = PAYMENT * (count_pairs::<PAIRS>(deals, first, bytes, new).min(n) * currencies);
    if lent.payments < room {
        return Err(Lent::Payments);
    }
    if lent.sums < room {
        return Err(Lent::Sums);
    }
    Ok(n)
}
