// Whole numbers, without sign and with one. They may have any number of digits.
ghost use Rattle.std.specs.Prelude.{◌≡◌, ℕ, suc, ◌+◌, ◌≤◌, min, true, false, length, ℤ, pos, MatchOption, MatchResult};
ghost use Rattle.texts.specs.Text.{digit, Number, Amount};
ghost use Rattle.texts.specs.Reading.{byte_at, NoDigit, Took, Stops, Positive, capped, capped_amount};

use crate::words::byte_at;

// The digit at a place, if one stands there.
pub(crate) fn digit_at(text: &[u8], at: usize) -> Option<u8>
    ensures { MatchOption result (digit (byte_at text.now at) ≡ false) (λ d. (digit (byte_at text.now at) ≡ true) × (byte_at text.now at ≡ 48 + d)) }
{
    let b = byte_at(text, at)?;
    b.is_ascii_digit().then(|| b - b'0')
}

// A number above 0, and where the text goes on behind it: a place that is handed back, and so counted.
fn positive(text: &[u8], at: usize) -> Result<(u64, usize), usize>
    requires { at ≤ length text.now }
    ensures { MatchResult result (λ p. (n : ℕ) × (p.0 ≡ capped (suc n)) × Took NoDigit Positive text.now at p.1 n) (λ p. Stops NoDigit Positive text.now at p) }
{
    if digit_at(text, at).unwrap_or(0) == 0 {
        return Err(at);
    }
    let mut value: u64 = 0;
    let mut to = at;
    while let Some(d) = digit_at(text, to) {
        value = value.saturating_mul(10).saturating_add(u64::from(d));
        to += 1;
    }
    Ok((value, to))
}

// A number without sign, and where the text goes on behind it.
pub(crate) fn number(text: &[u8], at: usize) -> Result<(u64, usize), usize>
    requires { at ≤ length text.now }
    ensures { MatchResult result (λ p. (n : ℕ) × (p.0 ≡ capped n) × Took NoDigit Number text.now at p.1 n) (λ p. Stops NoDigit Number text.now at p) }
{
    if byte_at(text, at) == Some(b'0') {
        return Ok((0, at + 1));
    }
    positive(text, at)
}

// The number as one with sign.
fn signed(n: u64) -> i64
    ensures { result ≡ pos (min n 9223372036854775807) }
{
    i64::try_from(n).unwrap_or(i64::MAX)
}

// A number with sign, and where the text goes on behind it.
pub(crate) fn amount(text: &[u8], at: usize) -> Result<(i64, usize), usize>
    requires { at ≤ length text.now }
    ensures { MatchResult result (λ p. (a : ℤ) × (p.0 ≡ capped_amount a) × Took NoDigit Amount text.now at p.1 a) (λ p. Stops NoDigit Amount text.now at p) }
{
    if byte_at(text, at) == Some(b'-') {
        let (n, to) = positive(text, at + 1)?;
        return Ok((-signed(n), to));
    }
    let (n, to) = number(text, at)?;
    Ok((signed(n), to))
}
