// Contracts: each is read by how it begins, and goes as far as it can.
// A reader is handed a place and hands back the one behind: a cursor would carry the same two, and each clause would have to add that its bytes stay.
// What each promises says how the text, the place and what was read before and after belong together: no value has that as a fact, and two words of specs say it, so they stand at each.
// Its refusal is the place alone, since there is one reason: no contract's text goes on so.
ghost use Rattle.std.specs.Prelude.{◌≡◌, ℕ, ◌+◌, ◌<◌, ◌≤◌, length, MatchResult};
ghost use Rattle.texts.specs.Text.{Text};
ghost use Rattle.texts.specs.Reading.{byte_at, Any, NoDigit, Took, Stops, capped};
ghost use Rattle.texts.specs.Ranges.{ContractRead, PairRead};
ghost use Rattle.texts.specs.Openings.{Opens, PairText, DayColon};

use crate::figures::{End, figure};
use crate::nodes::Node;
use crate::numbers::{amount, number};
use crate::reader::Reading;
use crate::words::{byte_at, word};

// How a contract begins: what the readers are matched by.
pub enum Opening {
    Nothing,
    Pays,
    Turned,
    Both,
    Choice,
    If,
    On,
    When,
    By,
    Figure,
}

fn opening_at(text: &[u8], at: usize) -> Opening
    requires { at ≤ length text.now }
    ensures { Opens result (byte_at text.now at) (byte_at text.now (at + 1)) }
{
    match byte_at(text, at) {
        Some(b'n') => Opening::Nothing,
        Some(b'p') => Opening::Pays,
        Some(b't') => Opening::Turned,
        Some(b'b') if byte_at(text, at + 1) == Some(b'y') => Opening::By,
        Some(b'b') => Opening::Both,
        Some(b'c') => Opening::Choice,
        Some(b'i') => Opening::If,
        Some(b'o') => Opening::On,
        Some(b'w') => Opening::When,
        _ => Opening::Figure,
    }
}

// Nothing.
fn nothing(text: &[u8], at: usize, read: &mut Reading) -> Result<usize, usize>
    requires within { at ≤ length text.now }
    requires opens { Opens Opening.Nothing (byte_at text.now at) (byte_at text.now (at + 1)) }
    ensures { MatchResult result (λ to. ContractRead text.now at read.old read.new to) (λ p. Stops NoDigit Text text.now at p) }
{
    let to = word(text, at, b"nothing")?;
    read.tree.push(Node::Nothing);
    Ok(to)
}

// So much of a currency.
fn pays(text: &[u8], at: usize, read: &mut Reading) -> Result<usize, usize>
    requires within { at ≤ length text.now }
    requires opens { Opens Opening.Pays (byte_at text.now at) (byte_at text.now (at + 1)) }
    ensures { MatchResult result (λ to. ContractRead text.now at read.old read.new to) (λ p. Stops NoDigit Text text.now at p) }
{
    let to = word(text, at, b"pays ")?;
    let (a, to) = amount(text, to)?;
    let to = word(text, to, b" ")?;
    let (k, behind) = number(text, to)?;
    let limit = read.ranges.currencies;
    read.ranges.note(to, k, limit);
    read.tree.push(Node::Pays(k, a));
    Ok(behind)
}

// A day, and what stands behind it.
fn day_colon(text: &[u8], at: usize) -> Result<(u64, usize), usize>
    requires { at ≤ length text.now }
    ensures { MatchResult result (λ p. (d : ℕ) × (p.0 ≡ capped d) × Took Any DayColon text.now at p.1 d) (λ p. Stops Any DayColon text.now at p) }
{
    let (d, to) = number(text, at)?;
    let to = word(text, to, b": ")?;
    Ok((d, to))
}

// The same the other way round.
#[cycle(by_day_contract_if_else_on_day_pair_scaled_turned_when)]
fn turned(text: &[u8], at: usize, read: &mut Reading) -> Result<usize, usize>
    requires within { at ≤ length text.now }
    requires opens { Opens Opening.Turned (byte_at text.now at) (byte_at text.now (at + 1)) }
    ensures { MatchResult result (λ to. ContractRead text.now at read.old read.new to) (λ p. Stops NoDigit Text text.now at p) }
{
    let to = word(text, at, b"turned(")?;
    read.tree.push(Node::Turned);
    let to = contract(text, to, read)?;
    word(text, to, b")")
}

// Two, in brackets behind a word. It is part of what calls it, so that no node is kept on the stack for it.
#[inline(always)]
#[cycle(by_day_contract_if_else_on_day_pair_scaled_turned_when)]
fn pair(text: &[u8], at: usize, name: &[u8], node: Node, read: &mut Reading) -> Result<usize, usize>
    requires within { at ≤ length text.now }
    requires named { 0 < length name.now }
    ensures { MatchResult result (λ to. PairRead name.now node text.now at read.old read.new to) (λ p. Stops NoDigit (PairText name.now) text.now at p) }
{
    let to = word(text, at, name)?;
    read.tree.push(node);
    let to = contract(text, to, read)?;
    let to = word(text, to, b", ")?;
    let to = contract(text, to, read)?;
    word(text, to, b")")
}

// One or the other by a figure.
#[cycle(by_day_contract_if_else_on_day_pair_scaled_turned_when)]
fn if_else(text: &[u8], at: usize, read: &mut Reading) -> Result<usize, usize>
    requires within { at ≤ length text.now }
    requires opens { Opens Opening.If (byte_at text.now at) (byte_at text.now (at + 1)) }
    ensures { MatchResult result (λ to. ContractRead text.now at read.old read.new to) (λ p. Stops NoDigit Text text.now at p) }
{
    let to = word(text, at, b"if ")?;
    read.tree.push(Node::If);
    let to = figure(text, to, End { byte: b' ' }, read)?;
    let to = word(text, to, b"then ")?;
    let to = contract(text, to, read)?;
    let to = word(text, to, b" else ")?;
    contract(text, to, read)
}

// As much as a figure says.
#[cycle(by_day_contract_if_else_on_day_pair_scaled_turned_when)]
fn scaled(text: &[u8], at: usize, read: &mut Reading) -> Result<usize, usize>
    requires within { at ≤ length text.now }
    requires opens { Opens Opening.Figure (byte_at text.now at) (byte_at text.now (at + 1)) }
    ensures { MatchResult result (λ to. ContractRead text.now at read.old read.new to) (λ p. Stops NoDigit Text text.now at p) }
{
    read.tree.push(Node::Of);
    let to = figure(text, at, End { byte: b' ' }, read)?;
    let to = word(text, to, b"of ")?;
    contract(text, to, read)
}

// On a day.
#[cycle(by_day_contract_if_else_on_day_pair_scaled_turned_when)]
fn on_day(text: &[u8], at: usize, read: &mut Reading) -> Result<usize, usize>
    requires within { at ≤ length text.now }
    requires opens { Opens Opening.On (byte_at text.now at) (byte_at text.now (at + 1)) }
    ensures { MatchResult result (λ to. ContractRead text.now at read.old read.new to) (λ p. Stops NoDigit Text text.now at p) }
{
    let to = word(text, at, b"on ")?;
    let (d, behind) = day_colon(text, to)?;
    read.ranges.note(to, d, 65536);
    read.tree.push(Node::On(d));
    contract(text, behind, read)
}

// When a figure says so.
#[cycle(by_day_contract_if_else_on_day_pair_scaled_turned_when)]
fn when(text: &[u8], at: usize, read: &mut Reading) -> Result<usize, usize>
    requires within { at ≤ length text.now }
    requires opens { Opens Opening.When (byte_at text.now at) (byte_at text.now (at + 1)) }
    ensures { MatchResult result (λ to. ContractRead text.now at read.old read.new to) (λ p. Stops NoDigit Text text.now at p) }
{
    let to = word(text, at, b"when ")?;
    read.tree.push(Node::When);
    let to = figure(text, to, End { byte: b':' }, read)?;
    let to = word(text, to, b" ")?;
    contract(text, to, read)
}

// On a chosen day. The node holds the day that was read, so one function for this and `on_day` would take a closure that makes the node, and a clause that says which one it makes: no shorter than both.
#[cycle(by_day_contract_if_else_on_day_pair_scaled_turned_when)]
fn by_day(text: &[u8], at: usize, read: &mut Reading) -> Result<usize, usize>
    requires within { at ≤ length text.now }
    requires opens { Opens Opening.By (byte_at text.now at) (byte_at text.now (at + 1)) }
    ensures { MatchResult result (λ to. ContractRead text.now at read.old read.new to) (λ p. Stops NoDigit Text text.now at p) }
{
    let to = word(text, at, b"by ")?;
    let (d, behind) = day_colon(text, to)?;
    read.ranges.note(to, d, 65536);
    read.tree.push(Node::By(d));
    contract(text, behind, read)
}

// A contract; where the text goes on behind it.
#[cycle(by_day_contract_if_else_on_day_pair_scaled_turned_when)]
pub(crate) fn contract(text: &[u8], at: usize, read: &mut Reading) -> Result<usize, usize>
    requires within { at ≤ length text.now }
    ensures { MatchResult result (λ to. ContractRead text.now at read.old read.new to) (λ p. Stops NoDigit Text text.now at p) }
{
    match opening_at(text, at) {
        Opening::Nothing => nothing(text, at, read),
        Opening::Pays => pays(text, at, read),
        Opening::Turned => turned(text, at, read),
        Opening::Both => pair(text, at, b"both(", Node::Both, read),
        Opening::Choice => pair(text, at, b"choice(", Node::Choice, read),
        Opening::If => if_else(text, at, read),
        Opening::On => on_day(text, at, read),
        Opening::When => when(text, at, read),
        Opening::By => by_day(text, at, read),
        Opening::Figure => scaled(text, at, read),
    }
}
