// Words of the language: a text goes on with one, or it is refused at the first byte that differs.
ghost use Rattle.std.specs.Prelude.{◌≡◌, ◌≤◌, [], ◌∷◌, length, MatchResult, unwrap_or};
ghost use Rattle.texts.specs.Reading.{byte_at, Any, Word, Took, Stops};

// The byte at a place; none past the end.
pub(crate) fn byte_at(text: &[u8], at: usize) -> Option<u8>
    ensures { unwrap_or result 256 ≡ byte_at text.now at }
{
    text.get(at).copied()
}

// Where the text goes on behind one byte.
pub(crate) fn byte(text: &[u8], at: usize, expected: u8) -> Result<usize, usize>
    requires { at ≤ length text.now }
    ensures { MatchResult result (λ to. Took Any (Word (expected ∷ [])) text.now at to tt) (λ p. Stops Any (Word (expected ∷ [])) text.now at p) }
{
    if byte_at(text, at) == Some(expected) {
        Ok(at + 1)
    } else {
        Err(at)
    }
}

// Where the text goes on behind a word, or the first byte at which it isn't that word's. The place is what is handed back, so it is counted.
pub(crate) fn word(text: &[u8], at: usize, expected: &[u8]) -> Result<usize, usize>
    requires { at ≤ length text.now }
    ensures { MatchResult result (λ to. Took Any (Word expected.now) text.now at to tt) (λ p. Stops Any (Word expected.now) text.now at p) }
{
    let mut to = at;
    for b in expected {
        if byte_at(text, to) != Some(*b) {
            return Err(to);
        }
        to += 1;
    }
    Ok(to)
}
