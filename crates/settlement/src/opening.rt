// The new deals of a morning come into the lent bytes, each under the next number.
ghost use Rattle.std.specs.Prelude.{◌+◌, ◌*◌, ◌≤◌, length};
ghost use Rattle.settlement.specs.Opening.{OpenedDeal, OpenedNext, OpensAll};

use crate::directory::{Entry, write_entry};
use crate::room::SLOT;
use mornings::Start;
use mornings::places::{DealAt, whole_deal_at};
use residual::deal::{PART, open};
use texts::nodes::Node;
use texts::reader::Reading;
use texts::reading::read_part;

// One deal, by its contract's marks. The fields of the entry come from two structs.
fn open_deal(deals: &mut [u8], c: usize, d: DealAt, marks: &[Node])
    requires { 16384 * c + 16384 ≤ length deals.old }
    ensures { OpenedDeal c d.holder d.other d.day marks.now deals.old deals.new }
{
    let kept = open(&mut deals[SLOT * c..SLOT * c + PART], marks, d.day);
    write_entry(
        deals,
        c,
        Entry {
            holder: d.holder,
            other: d.other,
            kept,
        },
    );
}

// The deal that stands at a place of the morning; the place behind it. Where none can stand nothing is written.
fn open_next(
    deals: &mut [u8],
    c: usize,
    bytes: &[u8],
    at: usize,
    start: Start,
    read: &mut Reading,
) -> usize
    requires { 16384 * c + 16384 ≤ length deals.old }
    ensures { OpenedNext start bytes.now c at deals.old result deals.new }
{
    let Some(d) = whole_deal_at(bytes, at) else {
        return at;
    };
    let Ok(()) = read_part(
        bytes,
        d.text_at,
        d.text_end,
        start.rates,
        start.currencies,
        read,
    ) else {
        return at;
    };
    open_deal(deals, c, d, read.tree.row());
    d.text_end
}

// All deals of a morning, behind those that there are: k counts them, and first + k is a deal's number. They are walked by place, as in `count_new`.
pub fn open_deals(deals: &mut [u8], first: usize, bytes: &[u8], n: u16, start: Start)
    requires { 16384 * (first + n) ≤ length deals.old }
    ensures { OpensAll start bytes.now n first deals.old deals.new }
{
    let mut read = Reading::new();
    let mut at = 2;
    for k in 0..n {
        at = open_next(deals, first + k as usize, bytes, at, start, &mut read);
    }
}
