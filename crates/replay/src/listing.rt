// The deals of all mornings taken, listed in the order of their numbers.
ghost use Rattle.std.specs.Prelude.{◌≡◌, ◌+◌, ◌≤◌, length};
ghost use Rattle.replay.specs.Listing.{deal_in, MorningListed, AllListed};

use crate::days::Days;
use mornings::places::{DealAt, whole_deal_at};

// A deal as it stands in a morning, with the number of that.
#[derive(Clone, Copy, Default)]
pub struct DealIn {
    pub morning: usize,
    pub at: DealAt,
}

// The deal at a place of a morning, if there is a whole one.
fn deal_in(bytes: &[u8], at: usize, morning: usize) -> Option<DealIn>
    ensures { result ≡ deal_in bytes.now at morning }
{
    let at = whole_deal_at(bytes, at)?;
    Some(DealIn { morning, at })
}

// Lists the deals of a morning, so many, behind those listed before; how many are listed then, or none if there is no room.
fn list_morning(
    bytes: &[u8],
    many: usize,
    morning: usize,
    deals: &mut [DealIn],
    count: usize,
) -> Option<usize>
    ensures { MorningListed bytes.now many morning deals.old count result deals.new }
{
    // The deals lie in a lent slice, so how many there are is counted beside it, and written by index: after `get_mut` nothing is known of the slice.
    let mut count = count;
    let mut at = 2;
    for _ in 0..many {
        let deal = deal_in(bytes, at, morning)?;
        if count >= deals.len() {
            return None;
        }
        deals[count] = deal;
        count += 1;
        at = deal.at.text_end;
    }
    Some(count)
}

// Lists all deals; how many there are, or none if there is no room.
pub(crate) fn list_deals(days: Days, deals: &mut [DealIn]) -> Option<usize>
    ensures { AllListed days.entry.kept.now days.entry.days.now deals.old result deals.new }
{
    let mut count = 0;
    for (t, day) in days.days.iter().enumerate() {
        let many = day.parts.deals as usize;
        count = list_morning(days.bytes_of(*day), many, t, deals, count)?;
    }
    Some(count)
}
