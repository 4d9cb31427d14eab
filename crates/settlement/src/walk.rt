// The deals of a day in the order of their pairs: each has its morning, and what each pair comes to is paid.
ghost use Rattle.std.specs.Prelude.{◌≤◌};
ghost use Rattle.settlement.specs.Walk.{Walks};

use crate::netting::wake_side;
use crate::payments::net_pair;
use mornings::pairs::Pair;

const CURRENCIES: usize = 64;

// The deals of the words, one after the other; where another pair begins, what the one before has come to is paid. How many payments there are.
pub(crate) fn walk(
    deals: &mut [u8],
    t: u32,
    words: &[u64],
    currencies: usize,
    payments: &mut [u8],
) -> usize
    requires { currencies ≤ 64 }
    ensures { Walks t currencies words.now deals.old payments.old result deals.new payments.new }
{
    // At most 64 of each, of which as many are lent as there are currencies. Two slices and not pairs of sums: what is due of a deal is added up in one of them.
    let mut gets = [0i64; CURRENCIES];
    let mut gives = [0i64; CURRENCIES];
    let gets = &mut gets[..currencies];
    let gives = &mut gives[..currencies];
    // No deal is of this pair, and nothing has come together for it.
    let mut at = Pair { low: 0, high: 0 };
    let mut count = 0;
    for &word in words {
        let next = Pair::numbered(word / 65536);
        if next != at {
            count = net_pair(at, gets, gives, payments, count);
        }
        at = next;
        wake_side(deals, (word % 65536) as usize, t, gets, gives);
    }
    net_pair(at, gets, gives, payments, count)
}
