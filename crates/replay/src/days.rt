// The mornings that were taken, in lent bytes: one behind the other, each with the places of its parts.
ghost use Rattle.replay.specs.Days.{bytes_of, signed_at, rates_of, rate_before};
ghost use Rattle.std.specs.Prelude.{◌≡◌};

use mornings::Ends;
use octets::Word;

// Where a morning's bytes begin and end among those that are kept, and where its parts stand in them.
#[derive(Clone, Copy)]
pub struct DayAt {
    pub from: usize,
    pub to: usize,
    pub parts: Ends,
}

// The bytes of the mornings that are kept, and where each morning stands among them.
#[derive(Clone, Copy)]
pub(crate) struct Days<'a> {
    pub(crate) kept: &'a [u8],
    pub(crate) days: &'a [DayAt],
}

// Number k of a row of numbers with sign that begins at a place; 0 past the end.
fn signed_at(bytes: &[u8], at: usize, k: usize) -> i64
    ensures { result ≡ signed_at bytes.now at k }
{
    if k >= bytes.len().saturating_sub(at) / 8 {
        return 0;
    }
    i64::read(bytes, at + 8 * k)
}

impl<'a> Days<'a> {
    // The bytes of a morning, as far as they are kept.
    pub(crate) fn bytes_of(self, day: DayAt) -> &'a [u8]
        ensures { result.now ≡ bytes_of self.entry.kept.now day }
    {
        let to = day.to.min(self.kept.len());
        self.kept.get(day.from..to).unwrap_or(&[])
    }

    // Rate k of day t; 0 on a day that is not known.
    fn rate_on(self, t: usize, k: usize) -> i64
        ensures { result ≡ rates_of self.entry t k }
    {
        let Some(day) = self.days.get(t) else {
            return 0;
        };
        signed_at(self.bytes_of(*day), day.parts.rates_at, k)
    }

    // The same, n days before day t; 0 before the first day.
    pub(crate) fn rate_before(self, t: usize, k: usize, n: usize) -> i64
        ensures { result ≡ rate_before (rates_of self.entry) t k n }
    {
        if n > t {
            return 0;
        }
        self.rate_on(t - n, k)
    }
}
