// Figures. Each is read with the byte behind it, since a space behind `rate k` may begin its n or end it.
// What each promises stands at each, as with contracts.
ghost use Rattle.std.specs.Prelude.{◌≡◌, ℕ, ◌≤◌, true, false, length, MatchBool, MatchResult};
ghost use Rattle.texts.specs.Text.{digit};
ghost use Rattle.texts.specs.Reading.{byte_at, Any, NoDigit, Took, Stops, capped};
ghost use Rattle.texts.specs.Ranges.{Noted, RateEndingNumerals, FigureRead};
ghost use Rattle.texts.specs.Figures.{Ended, RateEnding, Operator, OperatorText, operator_node, OpensFigure};

use crate::nodes::Node;
use crate::numbers::{amount, digit_at, number};
use crate::ranges::Ranges;
use crate::reader::Reading;
use crate::words::{byte, byte_at, word};

// The byte that ends a figure; it is no digit, so that a number ends before it.
#[derive(Clone, Copy)]
pub(crate) struct End {
    pub byte: u8,
    ghost plain: { digit byte ≡ false },
}

// How a figure begins: what the readers are matched by.
pub enum FigureOpening {
    Bracket,
    Max,
    Rate,
    Day,
    Number,
}

fn figure_opening_at(text: &[u8], at: usize) -> FigureOpening
    ensures { OpensFigure result (byte_at text.now at) }
{
    match byte_at(text, at) {
        Some(b'(') => FigureOpening::Bracket,
        Some(b'm') => FigureOpening::Max,
        Some(b'r') => FigureOpening::Rate,
        Some(b'd') => FigureOpening::Day,
        _ => FigureOpening::Number,
    }
}

// Whether the space before this place, behind the k of a rate, asks for an n.
fn asks_number(text: &[u8], at: usize, end: u8) -> bool
    ensures { MatchBool result (end ≡ 32 → digit (byte_at text.now at) ≡ true) ((end ≡ 32) × (digit (byte_at text.now at) ≡ false)) }
{
    end != b' ' || digit_at(text, at).is_some()
}

// What may stand behind `rate k`: a space, n and the end; or the end.
fn rate_end(text: &[u8], at: usize, end: End, ranges: &mut Ranges) -> Result<(u64, usize), usize>
    requires within { at ≤ length text.now }
    ensures { MatchResult result (λ p. (n : ℕ) × (p.0 ≡ capped n) × Took NoDigit (RateEnding end.byte) text.now at p.1 n × Noted ranges.old ranges.new (RateEndingNumerals end.byte n) text.now at p.1) (λ p. Stops NoDigit (RateEnding end.byte) text.now at p) }
{
    if byte_at(text, at) != Some(b' ') {
        let to = byte(text, at, end.byte)?;
        return Ok((0, to));
    }
    if !asks_number(text, at + 1, end.byte) {
        return Ok((0, at + 1));
    }
    let (n, to) = number(text, at + 1)?;
    let to = byte(text, to, end.byte)?;
    ranges.note(at + 1, n, 4097);
    Ok((n, to))
}

// A number.
fn fixed(text: &[u8], at: usize, end: End, read: &mut Reading) -> Result<usize, usize>
    requires within { at ≤ length text.now }
    requires opens { OpensFigure FigureOpening.Number (byte_at text.now at) }
    ensures { MatchResult result (λ to. FigureRead end.byte text.now at read.old read.new to) (λ p. Stops NoDigit (Ended end.byte) text.now at p) }
{
    let (a, to) = amount(text, at)?;
    let to = byte(text, to, end.byte)?;
    read.tree.push(Node::Fixed(a));
    Ok(to)
}

// A rate of the day or of some days before.
fn rate(text: &[u8], at: usize, end: End, read: &mut Reading) -> Result<usize, usize>
    requires within { at ≤ length text.now }
    requires opens { OpensFigure FigureOpening.Rate (byte_at text.now at) }
    ensures { MatchResult result (λ to. FigureRead end.byte text.now at read.old read.new to) (λ p. Stops NoDigit (Ended end.byte) text.now at p) }
{
    let to = word(text, at, b"rate ")?;
    let (k, behind) = number(text, to)?;
    let limit = read.ranges.rates;
    read.ranges.note(to, k, limit);
    let (n, to) = rate_end(text, behind, end, &mut read.ranges)?;
    read.tree.push(Node::Rate(k, n));
    Ok(to)
}

// The day.
fn day(text: &[u8], at: usize, end: End, read: &mut Reading) -> Result<usize, usize>
    requires within { at ≤ length text.now }
    requires opens { OpensFigure FigureOpening.Day (byte_at text.now at) }
    ensures { MatchResult result (λ to. FigureRead end.byte text.now at read.old read.new to) (λ p. Stops NoDigit (Ended end.byte) text.now at p) }
{
    let to = word(text, at, b"day")?;
    let to = byte(text, to, end.byte)?;
    read.tree.push(Node::Day);
    Ok(to)
}

// What stands between two figures in brackets.
fn operator(text: &[u8], at: usize) -> Result<(Node, usize), usize>
    requires { at ≤ length text.now }
    ensures { MatchResult result (λ p. (o : Operator) × (p.0 ≡ operator_node o) × Took Any OperatorText text.now at p.1 o) (λ p. Stops Any OperatorText text.now at p) }
{
    match byte_at(text, at) {
        Some(b'+') => Ok((Node::Plus, at + 1)),
        Some(b'-') => Ok((Node::Minus, at + 1)),
        Some(b'*') => Ok((Node::Times, at + 1)),
        Some(b'<') => Ok((Node::Less, at + 1)),
        _ => Err(at),
    }
}

// Two figures in brackets; the node of what stands between them goes before both.
#[cycle(bracket_figure_larger)]
fn bracket(text: &[u8], at: usize, end: End, read: &mut Reading) -> Result<usize, usize>
    requires within { at ≤ length text.now }
    requires opens { OpensFigure FigureOpening.Bracket (byte_at text.now at) }
    ensures { MatchResult result (λ to. FigureRead end.byte text.now at read.old read.new to) (λ p. Stops NoDigit (Ended end.byte) text.now at p) }
{
    let to = word(text, at, b"(")?;
    let slot = read.tree.count();
    read.tree.push(Node::Plus);
    let to = figure(text, to, End { byte: b' ' }, read)?;
    let (node, to) = operator(text, to)?;
    let to = word(text, to, b" ")?;
    let to = figure(text, to, End { byte: b')' }, read)?;
    let to = byte(text, to, end.byte)?;
    read.tree.put(slot, node);
    Ok(to)
}

// The larger of two figures. In `bracket` what stands between them is read, here it is known: one function for both would ask which at each step.
#[cycle(bracket_figure_larger)]
fn larger(text: &[u8], at: usize, end: End, read: &mut Reading) -> Result<usize, usize>
    requires within { at ≤ length text.now }
    requires opens { OpensFigure FigureOpening.Max (byte_at text.now at) }
    ensures { MatchResult result (λ to. FigureRead end.byte text.now at read.old read.new to) (λ p. Stops NoDigit (Ended end.byte) text.now at p) }
{
    let to = word(text, at, b"max(")?;
    read.tree.push(Node::Max);
    let to = figure(text, to, End { byte: b',' }, read)?;
    let to = word(text, to, b" ")?;
    let to = figure(text, to, End { byte: b')' }, read)?;
    byte(text, to, end.byte)
}

// A figure and the byte behind it; where the text goes on behind that.
#[cycle(bracket_figure_larger)]
pub(crate) fn figure(text: &[u8], at: usize, end: End, read: &mut Reading) -> Result<usize, usize>
    requires within { at ≤ length text.now }
    ensures { MatchResult result (λ to. FigureRead end.byte text.now at read.old read.new to) (λ p. Stops NoDigit (Ended end.byte) text.now at p) }
{
    match figure_opening_at(text, at) {
        FigureOpening::Bracket => bracket(text, at, end, read),
        FigureOpening::Max => larger(text, at, end, read),
        FigureOpening::Rate => rate(text, at, end, read),
        FigureOpening::Day => day(text, at, end, read),
        FigureOpening::Number => fixed(text, at, end, read),
    }
}
