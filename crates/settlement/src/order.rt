// The deals that wake on a day, as words whose order is that of their pairs.
ghost use Rattle.std.specs.Prelude.{◌≡◌, ◌*◌, ◌<◌, ◌≤◌, length, take};
ghost use Rattle.settlement.specs.Order.{words_waking};

use crate::directory::read_entry;
use mornings::pairs::pair_of;

// The words of the deals that wake up to day t, at the front of work; how many there are. A word is one sum, as the keys of `replay` are: a function for both would be public, with a longer promise than body. They are counted as they are written: there is no heap, and work is lent.
pub(crate) fn collect_waking(deals: &[u8], n: usize, t: u32, work: &mut [u64]) -> usize
    requires deals { 16384 * n ≤ length deals.now }
    requires few { n ≤ 65536 }
    requires work { n ≤ length work.old }
    ensures within { result ≤ n }
    ensures words { take result work.new ≡ words_waking t deals.now n }
{
    let mut count = 0;
    'waking: for c in 0..n {
        let e = read_entry(deals, c);
        if e.kept.wake > t {
            continue 'waking;
        }
        work[count] = pair_of(e.holder, e.other) * 65536 + c as u64;
        count += 1;
    }
    count
}
