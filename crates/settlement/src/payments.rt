// What a pair has come to is paid, currency by currency, into the lent bytes.
ghost use Rattle.std.specs.Prelude.{◌≡◌, ◌≤◌, length};
ghost use Rattle.settlement.specs.Paying.{PaysPair};

use mornings::pairs::{Pair, pay_pair};

// Pays what a pair has come to, and begins again from 0; how many payments there are then.
pub(crate) fn net_pair(
    pair: Pair,
    gets: &mut [i64],
    gives: &mut [i64],
    payments: &mut [u8],
    count: usize,
) -> usize
    requires same { length gets.old ≡ length gives.old }
    requires few { length gets.old ≤ 64 }
    ensures { PaysPair pair.low pair.high count gets.old gives.old payments.old result gets.new gives.new payments.new }
{
    // The one by index: what is written through `zip` is not known afterwards.
    for (k, give) in gives.iter_mut().enumerate() {
        gets[k] = gets[k].wrapping_sub(*give);
        *give = 0;
    }
    pay_pair(pair, gets, payments, count)
}
