// A part of a contract begins on a day: what is due is added up, and what waits becomes a row.
// The bytes, what they have left and what is due are lent one by one, and `state` is all three: a struct that holds them would have to promise besides that they stay the same ones.
ghost use Rattle.std.specs.Prelude.{◌≡◌, ◌+◌, ◌<◌, ◌≤◌, List, ℤ, MatchOption};
ghost use Rattle.residual.specs.Steps.{state, with_due, seen_through, with_row, with_turn, begun};

use crate::cells::{Node, ROWS, Row, read_above, read_node, write_row, write_turn};
use crate::deal::{PART, Summary};

const ENTRIES: u16 = 255;

// No contract is deeper, and no more entries stand above a part.
pub const DEEP: usize = 256;

// An amount more is due in currency k, if there is such a one. `replay` adds its own dues likewise: a crate below both for two lines is no plainer.
#[tactic(auto, unfolding(crate::specs::Steps::with_due))]
fn add_due(due: &mut [i64], k: usize, amount: i64)
    ensures { due.new ≡ with_due due.old k amount }
{
    if k < due.len() {
        due[k] = due[k].wrapping_add(amount);
    }
}

// An amount seen through what stands above, from entry j on: the other way round for each that is turned. At most n entries.
#[tactic(auto, using(crate::proofs::Unroll::through_steps), unfolding(crate::specs::Steps::by_above))]
fn see_through(part: &[u8; PART], n: usize, j: usize, amount: i64) -> i64
    ensures { result ≡ seen_through n part.now j amount }
{
    if n == 0 {
        return amount;
    }
    match read_above(part, j) {
        None => amount,
        Some(over) => see_through(part, n - 1, over as usize, amount.wrapping_neg()),
    }
}

// What a payment comes to, seen through what stands above it, is due.
fn pay(part: &[u8; PART], above: u16, currency: u16, amount: i64, due: &mut [i64])
    ensures { due.new ≡ with_due due.old currency (seen_through 256 part.now above amount) }
{
    let amount = see_through(part, DEEP, above as usize, amount);
    add_due(due, currency as usize, amount);
}

// One more entry, for a part that is turned, and its number; none where there is no room.
#[tactic(auto, unfolding(crate::specs::Steps::with_turn))]
fn turn(part: &mut [u8; PART], left: &mut Summary, over: u16) -> Option<u16>
    ensures { MatchOption result ((255 ≤ left.old.used) × (part.new ≡ part.old) × (left.new ≡ left.old)) (λ above. (left.old.used < 255) × (above ≡ left.old.used + 1) × ((due : List ℤ) → state part.new left.new due ≡ with_turn (state part.old left.old due) over)) }
{
    if left.used >= ENTRIES {
        return None;
    }
    left.used += 1;
    write_turn(part, left.used as usize, over);
    Some(left.used)
}

// One more row; it is left out where there is no room.
#[tactic(auto, unfolding(crate::specs::Steps::with_row))]
pub(crate) fn push_row(part: &mut [u8; PART], left: &mut Summary, row: Row)
    ensures { (due : List ℤ) → state part.new left.new due ≡ with_row (state part.old left.old due) row }
{
    if (left.rows as usize) < ROWS {
        write_row(part, left.rows as usize, row);
        left.rows += 1;
        left.wake = left.wake.min(row.day);
    }
}

// The part of a row begins on the row's day; at most n deep. Parts under it take places of their own between its ends, whatever the bytes are, so it looks at each place once.
#[tactic(auto, using(crate::proofs::Unroll::begun_steps), unfolding(crate::specs::Steps::by_node, crate::specs::Steps::with_turn))]
pub(crate) fn begin(part: &mut [u8; PART], n: usize, row: Row, left: &mut Summary, due: &mut [i64])
    ensures { state part.new left.new due.new ≡ begun n row.day row.part row.end row.above (state part.old left.old due.old) }
{
    if n == 0 || row.part >= row.end {
        return;
    }
    let next = Row {
        part: row.part + 1,
        ..row
    };
    match read_node(part, row.part as usize) {
        Node::Nothing => {}
        Node::Pays(currency, amount) => pay(part, row.above, currency, amount, due),
        Node::Turned => {
            if let Some(above) = turn(part, left, row.above) {
                begin(part, n - 1, Row { above, ..next }, left, due);
            }
        }
        // The second part begins where the first ends; where that lies outside, as it may in bytes that are no contract's, at the nearest place that doesn't.
        Node::Both(second) => {
            let end = second.min(row.end).max(next.part);
            begin(part, n - 1, Row { end, ..next }, left, due);
            begin(part, n - 1, Row { part: end, ..row }, left, due);
        }
        Node::OnDay(day) => {
            if row.day < day {
                push_row(part, left, Row { day, ..next });
            } else if row.day == day {
                begin(part, n - 1, next, left, due);
            }
        }
    }
}
