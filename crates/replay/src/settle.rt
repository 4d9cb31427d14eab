// What all deals together pay between any two on the last day.
ghost use Rattle.std.specs.Prelude.{◌≡◌, ◌/◌, ◌%◌, ◌≤◌, length};
ghost use Rattle.mornings.specs.Pairs.{PairPaid};
ghost use Rattle.replay.specs.Standing.{DayPaid, StandsAnew};
ghost use Rattle.replay.specs.Settle.{TurnedTo, KeysPaid, SortedPaid};

use crate::adding::Book;
use crate::days::{DayAt, Days};
use crate::listing::{DealIn, list_deals};
use crate::order::order_deals;
use mornings::Start;
use mornings::pairs::{Pair, pay_pair};
use mornings::payments::PAYMENT;

// Which of the lent slices is too short: one place for each deal in `deals` and in `keys`, 13 bytes for each deal and currency in `payments`.
#[derive(Clone, Copy)]
pub enum Short {
    Deals,
    Keys,
    Payments,
}

// Pays what the pair with this number has come to; how many payments there are then.
// The sums and payments lie in lent slices, so that their number, and a bound on the sums, stand beside them, as `pay_pair` has them.
fn pay_number(pair: u64, sums: &mut [i64], payments: &mut [u8], count: usize) -> usize
    requires { length sums.old ≤ 64 }
    ensures { PairPaid (pair / 65536 % 65536) (pair % 65536) count sums.old payments.old result sums.new payments.new }
{
    pay_pair(Pair::numbered(pair), sums, payments, count)
}

// The same before a deal of another pair, and nothing before one of the same.
fn turn_to(pair: u64, next: u64, sums: &mut [i64], payments: &mut [u8], count: usize) -> usize
    requires { length sums.old ≤ 64 }
    ensures { TurnedTo pair next count sums.old payments.old result sums.new payments.new }
{
    if pair == next {
        return count;
    }
    pay_number(pair, sums, payments, count)
}

// All deals by their keys, pair by pair, and the payments; how many there are.
fn pay_keys(
    book: Book,
    deals: &[DealIn],
    keys: &[u64],
    sums: &mut [i64],
    payments: &mut [u8],
) -> usize
    requires { length sums.old ≤ 64 }
    ensures { KeysPaid book.entry.start book.entry.days.kept.now book.entry.days.days.now deals.now keys.now sums.old payments.old result payments.new }
{
    let mut count = 0;
    let mut pair = 0;
    for key in keys {
        let c = (*key % 65536) as usize;
        let Some(deal) = deals.get(c) else {
            return 0;
        };
        let next = *key / 65536;
        count = turn_to(pair, next, sums, payments, count);
        pair = next;
        book.add_deal(*deal, c as u32, sums);
    }
    pay_number(pair, sums, payments, count)
}

// The same, from nothing come together yet. The sums are 64, of which as many are lent as there are currencies.
fn pay_sorted(
    book: Book,
    deals: &[DealIn],
    keys: &[u64],
    currencies: usize,
    payments: &mut [u8],
) -> usize
    requires { currencies ≤ 64 }
    ensures { SortedPaid book.entry.start book.entry.days.kept.now book.entry.days.days.now deals.now keys.now currencies payments.old result payments.new }
{
    let mut sums = [0i64; 64];
    pay_keys(book, deals, keys, &mut sums[0..currencies], payments)
}

// What is kept of mornings taken, one behind the other, stands for them.
pub fn stands_anew()
    ensures { StandsAnew }
{}

// Pays what is owed on the last of the mornings taken: writes the payments, in order, to the front of `payments`; how many there are.
// kept and days stay two slices here: that bytes are below 256 is known of a lent slice, but not of one within a struct.
pub fn pay_day(
    kept: &[u8],
    days: &[DayAt],
    start: Start,
    deals: &mut [DealIn],
    keys: &mut [u64],
    payments: &mut [u8],
) -> Result<usize, Short>
    ensures { DayPaid kept.now days.now start (length deals.old) (length keys.old) payments.old result payments.new }
{
    let days = Days { kept, days };
    let n = list_deals(days, deals).ok_or(Short::Deals)?;
    if n > deals.len() {
        return Err(Short::Deals);
    }
    if n > keys.len() || n > 65536 {
        return Err(Short::Keys);
    }
    let currencies = (start.currencies as usize).min(64);
    if payments.len() / PAYMENT < n * currencies {
        return Err(Short::Payments);
    }
    order_deals(&deals[0..n], keys);
    Ok(pay_sorted(
        Book { days, start },
        &deals[0..n],
        &keys[0..n],
        currencies,
        payments,
    ))
}
