// Rates of the last 4,097 days, kept in lent words: as long as a figure may look back.
#![tactic(auto)]

ghost use Rattle.std.specs.Prelude.{◌≡◌, ◌*◌, ◌%◌, ◌<◌, ◌≤◌, length, pos, MatchOption};
ghost use Rattle.fixings.specs.Fixings.{KeepsRates, LooksBack};

use mornings::places::rate_at;

// Rates are kept for so many days.
pub const DAYS: usize = 4097;

// The words of a day, if there is room for all days. The words are lent, so the number of rates and the day stand beside them, here and below.
fn first_word(words: &[i64], n: u16, day: u32) -> Option<usize>
    ensures { MatchOption result (length words.now < 4097 * n) (λ w. (4097 * n ≤ length words.now) × (w ≡ day % 4097 * n)) }
{
    let n = n as usize;
    (DAYS * n <= words.len()).then_some(day as usize % DAYS * n)
}

// The rates of a day, which stand in a morning's bytes from a place on, take the place of those of 4,097 days before. Where there is no room nothing is written, and where the bytes end too soon no more than those that there are.
pub fn keep_rates(words: &mut [i64], n: u16, day: u32, bytes: &[u8], at: usize)
    ensures kept { KeepsRates n day bytes.now at words.old words.new }
    ensures short { length words.old < 4097 * n → words.new ≡ words.old }
{
    let Some(first) = first_word(words, n, day) else {
        return;
    };
    // The bytes by number: what is written through `zip` is not known afterwards.
    for (k, word) in words[first..first + n as usize].iter_mut().enumerate() {
        if bytes.len() < 8 || at > bytes.len() - 8 || 8 * k > bytes.len() - 8 - at {
            return;
        }
        *word = rate_at(bytes, at + 8 * k);
    }
}

// Rate k, some days before a day; 0 before the first day, and where there is no such rate or no room for all days.
pub fn look_back(words: &[i64], n: u16, day: u32, k: u16, before: u32) -> i64
    ensures looks { LooksBack n day k before words.now result }
    ensures early { day < before → result ≡ pos 0 }
    ensures other { n ≤ k → result ≡ pos 0 }
    ensures short { length words.now < 4097 * n → result ≡ pos 0 }
{
    if before > day || k >= n {
        return 0;
    }
    let Some(first) = first_word(words, n, day - before) else {
        return 0;
    };
    words[first + k as usize]
}
