// Pairs of houses: their number, and what they have come to, paid in lent bytes of 13 for each payment, one behind the other.
ghost use Rattle.std.specs.Prelude.{◌≡◌, ◌/◌, ◌%◌, ◌<◌, ◌≤◌, length};
ghost use Rattle.deals.specs.Contract.{larger};
ghost use Rattle.deals.specs.Lines.{pair};
ghost use Rattle.deals.specs.Sleep.{smaller};
ghost use Rattle.mornings.specs.Pairs.{payment_of, Appended, PairPaid};

use crate::payments::{PAYMENT, Payment, write_payment};

// Two houses, the lower first.
#[derive(Clone, Copy, PartialEq, Eq)]
pub struct Pair {
    pub low: u16,
    pub high: u16,
}

impl Pair {
    // The pair with a number: lent work is words in the order of their pairs, so its houses come out of the word by `/` and `%`.
    pub fn numbered(n: u64) -> Pair
        ensures { result ≡ record { low = n / 65536 % 65536; high = n % 65536 } }
    {
        Pair {
            low: (n / 65536 % 65536) as u16,
            high: (n % 65536) as u16,
        }
    }
}

// The number of the pair of two houses: the lower one first, then the other.
pub fn pair_of(holder: u16, other: u16) -> u64
    ensures is { result ≡ pair (smaller holder other) (larger holder other) }
    ensures small { result < 4294967296 }
{
    u64::from(holder.min(other)) * 65536 + u64::from(holder.max(other))
}

// What the lower house of two has to pay the other in a currency: below 0 it is the other that pays, and for 0 there is no payment.
fn payment_of(pair: Pair, currency: u8, amount: i64) -> Option<Payment>
    ensures { result ≡ payment_of pair.low pair.high currency amount }
{
    let paid = Payment {
        from: pair.low,
        to: pair.high,
        currency,
        amount: amount.unsigned_abs(),
    };
    if amount > 0 {
        Some(paid)
    } else if amount < 0 {
        Some(Payment {
            from: pair.high,
            to: pair.low,
            ..paid
        })
    } else {
        None
    }
}

// A payment, if there is one, behind the others, if there is room; how many there are then. They lie in a lent slice, so that their number stands beside it, here and wherever they are paid.
fn append_payment(payments: &mut [u8], count: usize, payment: Option<Payment>) -> usize
    ensures { Appended count payment result payments.old payments.new }
{
    let Some(p) = payment else {
        return count;
    };
    if count >= payments.len() / PAYMENT {
        return count;
    }
    write_payment(payments, count, p);
    count + 1
}

// Pays what the lower house of a pair has come to owe the other, currency by currency, and begins again from 0; how many payments there are then. There are at most 64 currencies, which a lent slice can't say itself.
pub fn pay_pair(pair: Pair, sums: &mut [i64], payments: &mut [u8], count: usize) -> usize
    requires { length sums.old ≤ 64 }
    ensures { PairPaid pair.low pair.high count sums.old payments.old result sums.new payments.new }
{
    let mut count = count;
    for (k, sum) in sums.iter_mut().enumerate() {
        let amount = *sum;
        *sum = 0;
        count = append_payment(payments, count, payment_of(pair, k as u8, amount));
    }
    count
}
