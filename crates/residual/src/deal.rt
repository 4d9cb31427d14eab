// A deal's part of the lent bytes: it is opened with its contract, and woken on a day.
ghost use Rattle.std.specs.Prelude.{◌≡◌, ◌<◌, ◌≤◌, length, take};
ghost use Rattle.residual.specs.Deal.{Opens, OpensNone, Wakes, WakesNone};
ghost use Rattle.residual.specs.Layout.{first_rows};
ghost use Rattle.residual.specs.Steps.{state, woken};

use crate::begin::{DEEP, begin, push_row};
use crate::cells::{ROWS, Row, read_row, write_row};
use crate::lay::lay;
use texts::nodes::Node as Mark;

// A deal's part of the lent bytes is as long as this.
pub const PART: usize = 12288;

// What is kept of a deal beside its part: the day before which it need not be looked at, and how many rows and entries it has.
#[derive(Clone, Copy)]
pub struct Summary {
    pub wake: u32,
    pub rows: u16,
    pub used: u16,
}

// Nothing waits. No day is as late as this one: the lent bytes hold it, so that a deal sleeps by one comparison of days.
const NOTHING: Summary = Summary {
    wake: 65536,
    rows: 0,
    used: 0,
};

// A deal that is new, by its contract's marks: it waits for the day on which it begins. Where there are too many marks, or the part is too short, it is left as it is, with nothing to wait for.
pub fn open(part: &mut [u8], marks: &[Mark], from: u32) -> Summary
    ensures opens { Opens from marks.now result part.old part.new }
    ensures many { 256 < length marks.now → OpensNone result part.old part.new }
    ensures short { length part.old < 12288 → OpensNone result part.old part.new }
{
    if marks.len() > DEEP {
        return NOTHING;
    }
    let Some(part) = part.first_chunk_mut::<PART>() else {
        return NOTHING;
    };
    let end = lay(part, marks, DEEP, 0) as u16;
    write_row(
        part,
        0,
        Row {
            day: from,
            part: 0,
            end,
            above: 0,
        },
    );
    Summary {
        wake: from,
        rows: 1,
        ..NOTHING
    }
}

// The first rows, by value; the others are of no account. Only these are read: a closure for `from_fn` would have to read all 96, at each deal that is woken.
fn read_rows(part: &[u8; PART], count: usize) -> [Row; ROWS]
    requires { count ≤ 96 }
    ensures { take count result ≡ first_rows part.now count }
{
    let mut rows = [Row::default(); ROWS];
    for (k, row) in rows[..count].iter_mut().enumerate() {
        *row = read_row(part, k);
    }
    rows
}

// The rows on day t, one after the other: those of the day begin, and those of days to come go on waiting.
#[tactic(auto, using(crate::proofs::Unroll::woken_steps), unfolding(crate::specs::Steps::row_woken))]
fn wake_rows(part: &mut [u8; PART], rows: &[Row], t: u32, left: &mut Summary, due: &mut [i64])
    ensures { state part.new left.new due.new ≡ woken t rows.now (state part.old left.old due.old) }
{
    'rows: for &row in rows {
        if t < row.day {
            push_row(part, left, row);
            continue 'rows;
        }
        if t == row.day {
            begin(part, DEEP, row, left, due);
        }
    }
}

// A deal on day t: what is due is added up, and its part holds what is then left. Where there are too many rows, or the part is too short, all is left as it is.
pub fn wake(part: &mut [u8], kept: Summary, t: u32, due: &mut [i64]) -> Summary
    ensures wakes { Wakes t kept result part.old due.old part.new due.new }
    ensures many { 96 < kept.rows → WakesNone kept result part.old due.old part.new due.new }
    ensures short { length part.old < 12288 → WakesNone kept result part.old due.old part.new due.new }
{
    let count = kept.rows as usize;
    if count > ROWS {
        return kept;
    }
    let Some(part) = part.first_chunk_mut::<PART>() else {
        return kept;
    };
    let rows = read_rows(part, count);
    let mut left = Summary {
        used: kept.used,
        ..NOTHING
    };
    wake_rows(part, &rows[..count], t, &mut left, due);
    left
}
