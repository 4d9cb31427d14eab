// The morning of one deal in the lent bytes: what flows under it is added up for the two houses.
ghost use Rattle.std.specs.Prelude.{◌≡◌, ◌+◌, ◌*◌, ◌≤◌, length};
ghost use Rattle.settlement.specs.Directory.{entry_of};
ghost use Rattle.settlement.specs.Keeping.{WokenDeal, Netted};

use crate::directory::{Entry, read_entry, write_entry};
use crate::room::SLOT;
use residual::deal::{PART, wake};

// What flows to who holds the deal is added up.
fn wake_deal(deals: &mut [u8], c: usize, entry: Entry, t: u32, due: &mut [i64])
    requires fits { 16384 * c + 16384 ≤ length deals.old }
    requires is { entry ≡ entry_of deals.old c }
    ensures { WokenDeal t c deals.old due.old deals.new due.new }
{
    let kept = wake(&mut deals[SLOT * c..SLOT * c + PART], entry.kept, t, due);
    write_entry(deals, c, Entry { kept, ..entry });
}

// What flows to the higher house of the two is added to gets, what flows to the lower one to gives.
pub(crate) fn wake_side(deals: &mut [u8], c: usize, t: u32, gets: &mut [i64], gives: &mut [i64])
    ensures { Netted t c deals.old gets.old gives.old deals.new gets.new gives.new }
{
    if c >= deals.len() / SLOT {
        return;
    }
    let entry = read_entry(deals, c);
    if entry.holder < entry.other {
        wake_deal(deals, c, entry, t, gives);
    } else {
        wake_deal(deals, c, entry, t, gets);
    }
}
