// The deals as keys whose order is that of their pairs: the lower house, the other, the number of the deal.
ghost use Rattle.std.specs.Prelude.{◌≡◌, ◌<◌, ◌≤◌, length, take};
ghost use Rattle.replay.specs.Order.{key_of, keys_from};
ghost use Rattle.std.specs.List.Sorted.{IsPermutation, IsNonDecreasing};

use crate::listing::DealIn;
use mornings::pairs::pair_of;

// One sum, as in `settlement`: a function for both would be public, with a longer promise than body.
fn key_of(deal: DealIn, c: usize) -> u64
    requires { c < 65536 }
    ensures { result ≡ key_of deal c }
{
    65536 * pair_of(deal.at.holder, deal.at.other) + c as u64
}

// The keys of all deals, at the front of `keys`.
fn key_deals(deals: &[DealIn], keys: &mut [u64])
    requires few { length deals.now ≤ 65536 }
    requires room { length deals.now ≤ length keys.old }
    ensures { take (length deals.now) keys.new ≡ keys_from 0 deals.now }
{
    // The keys by index: what is written through `zip` is not known afterwards.
    for (c, deal) in deals.iter().enumerate() {
        keys[c] = key_of(*deal, c);
    }
}

// The same, in order.
pub(crate) fn order_deals(deals: &[DealIn], keys: &mut [u64])
    requires few { length deals.now ≤ 65536 }
    requires room { length deals.now ≤ length keys.old }
    ensures shuffled { IsPermutation (keys_from 0 deals.now) (take (length deals.now) keys.new) }
    ensures rising { IsNonDecreasing (take (length deals.now) keys.new) }
{
    key_deals(deals, keys);
    keys[0..deals.len()].sort_unstable();
}
