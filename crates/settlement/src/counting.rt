// How many pairs have a deal, those of a morning too: counted in a local table, so that nothing lent is written.
ghost use Rattle.std.specs.Prelude.{◌≡◌, ◌*◌, ◌≤◌, length};
ghost use Rattle.settlement.specs.Counting.{CountedPair, CountedKept, CountedNew, CountedAll};

use crate::directory::read_entry;
use mornings::places::whole_deal_at;

const HOUSES: usize = 1024;

// A house for each row and column of the table.
pub(crate) const PAIRS: usize = 1048576;

// One pair more, the lower house first; how many different ones there are then. Pairs of houses that there can't be are left out. The count goes beside the table: to count what it holds at the end is one more pass, and no plainer.
fn count_pair(seen: &mut [bool], count: usize, holder: u16, other: u16) -> usize
    ensures { CountedPair holder other seen.old count seen.new result }
{
    let at = holder.min(other) as usize * HOUSES + holder.max(other) as usize;
    if at >= seen.len() || seen[at] {
        return count;
    }
    seen[at] = true;
    count.wrapping_add(1)
}

// The pairs of the first n deals that the lent bytes keep.
fn count_kept(deals: &[u8], n: usize, seen: &mut [bool]) -> usize
    requires { 16384 * n ≤ length deals.now }
    ensures { CountedKept deals.now n seen.old result seen.new }
{
    let mut count = 0;
    for c in 0..n {
        let e = read_entry(deals, c);
        count = count_pair(seen, count, e.holder, e.other);
    }
    count
}

// The pairs of a morning's deals besides. Its deals are walked by place, as in `open_deals` and in a listing of `replay`: an iterator for the three would have to promise at each turn which deals are still to come.
fn count_new(bytes: &[u8], n: u16, seen: &mut [bool], before: usize) -> usize
    ensures { CountedNew bytes.now n seen.old before result seen.new }
{
    let mut count = before;
    let mut at = 2;
    for _k in 0..n {
        let Some(d) = whole_deal_at(bytes, at) else {
            return count;
        };
        count = count_pair(seen, count, d.holder, d.other);
        at = d.text_end;
    }
    count
}

// The pairs of the first deals that are kept, and of a morning's. N is how long the table is: a constant would be written out whole wherever the table is looked at. A call of its own, so that a morning for which nothing is counted needs no stack for the table.
#[inline(never)]
pub(crate) fn count_pairs<const N: usize>(deals: &[u8], first: usize, bytes: &[u8], n: u16) -> usize
    requires table { N ≡ 1048576 }
    requires long { 16384 * first ≤ length deals.now }
    ensures { CountedAll deals.now first bytes.now n result }
{
    let mut seen = [false; N];
    let count = count_kept(deals, first, &mut seen);
    count_new(bytes, n, &mut seen, count)
}
