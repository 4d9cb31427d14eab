// Writes contracts anew, into lent bytes: what they come to is counted first, so that nothing is written where it would not fit.
ghost use Rattle.std.specs.Prelude.{◌≡◌, ◌+◌, ◌*◌, ◌<◌, ◌≤◌, [], ◌∷◌, ◌++◌, length, None, codes, MatchOption, MatchResult, nat_le, unsigned_abs};
ghost use Rattle.texts.specs.Written.{written_number, written_amount, written_rate};
ghost use Rattle.texts.specs.Spelling.{Put, FirstPut, Wrote, Scaled, NotSpelled, SpelledWhole, WrittenOut, NotWritten, day_word, first_plain, first_word, is_figure, is_leaf, has_figure, between_word, scale_word, behind_word, figure_spelled, scale_spelled, contract_spelled};

use crate::limits::pair;
use crate::nodes::{Node, Tree};
use itoa::Buffer;

// Why a contract can't be written: the nodes are no contract's, or there is no room.
#[derive(Clone, Copy)]
pub enum WriteRefusal {
    NoContract,
    NoRoom,
}

// Writes a byte, if there is room; where the next goes.
// Here and below `out` and `to` stay two: a struct of them would have each function promise that it lends the same bytes.
fn put_byte(out: &mut [u8], to: usize, b: u8) -> usize
    requires { to < 18446744073709551615 }
    ensures { Put out.old out.new to (b ∷ []) result }
{
    if to < out.len() {
        out[to] = b;
    }
    to + 1
}

// Writes a word.
fn put_word(out: &mut [u8], to: usize, word: &[u8]) -> usize
    requires { to + length word.now < 18446744073709551616 }
    ensures { Put out.old out.new to word.now result }
{
    let mut next = to;
    for b in word {
        next = put_byte(out, next, *b);
    }
    next
}

// Writes a number.
fn put_number(out: &mut [u8], to: usize, n: u64) -> usize
    requires { to < 1000000 }
    ensures { Put out.old out.new to (written_number n) result }
{
    let mut digits = Buffer::new();
    put_word(out, to, digits.format(n).as_bytes())
}

// Writes a number with sign. One function for both kinds would promise the library's digits, and each caller would have to say which they are.
fn put_amount(out: &mut [u8], to: usize, a: i64) -> usize
    requires { to < 999999 }
    ensures { Put out.old out.new to (written_amount a) result }
{
    let mut digits = Buffer::new();
    put_word(out, to, digits.format(a).as_bytes())
}

// Writes a payment.
fn put_pays(out: &mut [u8], to: usize, k: u64, a: i64) -> usize
    requires { to < 900000 }
    ensures { Put out.old out.new to (codes "pays " ++ (written_amount a ++ (codes " " ++ written_number k))) result }
{
    let next = put_word(out, to, b"pays ");
    let next = put_amount(out, next, a);
    let next = put_word(out, next, b" ");
    put_number(out, next, k)
}

// Writes a rate, with how many days before if there are any.
fn put_rate(out: &mut [u8], to: usize, k: u64, n: u64) -> usize
    requires { to < 900000 }
    ensures { Put out.old out.new to (written_rate k n) result }
{
    let next = put_word(out, to, b"rate ");
    let next = put_number(out, next, k);
    if n == 0 {
        return next;
    }
    let next = put_word(out, next, b" ");
    put_number(out, next, n)
}

// Writes a word, and a day behind it.
fn put_day(out: &mut [u8], to: usize, word: &[u8], d: u64) -> usize
    requires { to + length word.now < 900000 }
    ensures { Put out.old out.new to (day_word word.now d) result }
{
    let next = put_word(out, to, word);
    let next = put_number(out, next, d);
    put_word(out, next, b": ")
}

// The first word of a node that has no number.
fn opening(node: Node) -> &'static [u8]
    ensures { result.now ≡ first_plain node }
{
    match node {
        Node::Nothing => b"nothing",
        Node::Turned => b"turned(",
        Node::Both => b"both(",
        Node::Choice => b"choice(",
        Node::If => b"if ",
        Node::When => b"when ",
        Node::Day => b"day",
        Node::Plus | Node::Minus | Node::Times | Node::Less => b"(",
        Node::Max => b"max(",
        _ => b"",
    }
}

// The word between two parts of a node.
fn middle(node: Node) -> &'static [u8]
    ensures { result.now ≡ between_word node }
{
    match node {
        Node::Plus => b" + ",
        Node::Minus => b" - ",
        Node::Times => b" * ",
        Node::Less => b" < ",
        Node::If => b" else ",
        _ => b", ",
    }
}

// The word behind the figure of a contract.
fn scaling(node: Node) -> &'static [u8]
    ensures { result.now ≡ scale_word node }
{
    match node {
        Node::If => b" then ",
        Node::Of => b" of ",
        _ => b": ",
    }
}

// The last word of a node.
fn ending(node: Node) -> &'static [u8]
    ensures { result.now ≡ behind_word node }
{
    match node {
        Node::Turned | Node::Both | Node::Choice => b")",
        Node::Plus | Node::Minus | Node::Times | Node::Max | Node::Less => b")",
        _ => b"",
    }
}

// Whether a node is a figure's.
fn figural(node: Node) -> bool
    ensures { result ≡ is_figure node }
{
    matches!(
        node,
        Node::Fixed(_)
            | Node::Rate(_, _)
            | Node::Day
            | Node::Plus
            | Node::Minus
            | Node::Times
            | Node::Max
            | Node::Less
    )
}

// Whether nothing stands within a node.
fn single(node: Node) -> bool
    ensures { result ≡ is_leaf node }
{
    matches!(
        node,
        Node::Nothing | Node::Pays(_, _) | Node::Fixed(_) | Node::Rate(_, _) | Node::Day
    )
}

// Whether a contract has a figure before its parts.
fn scaled(node: Node) -> bool
    ensures { result ≡ has_figure node }
{
    matches!(node, Node::If | Node::Of | Node::When)
}

// Whether an amount is one that nodes hold: -2^63 is none.
fn held(a: i64) -> bool
    ensures { result ≡ nat_le (unsigned_abs a) 9223372036854775807 }
{
    a.unsigned_abs() <= 9223372036854775807
}

// Writes the first word of a node, with its numbers; nothing if no contract's node has such a number.
fn put_first(out: &mut [u8], to: usize, node: Node) -> Option<usize>
    requires { to < 800000 }
    ensures { MatchOption result (first_word node ≡ None) (FirstPut node out.old out.new to) }
{
    match node {
        Node::Pays(k, a) => {
            if !held(a) {
                return None;
            }
            Some(put_pays(out, to, k, a))
        }
        Node::Fixed(a) => {
            if !held(a) {
                return None;
            }
            Some(put_amount(out, to, a))
        }
        Node::Rate(k, n) => Some(put_rate(out, to, k, n)),
        Node::On(d) => Some(put_day(out, to, b"on ", d)),
        Node::By(d) => Some(put_day(out, to, b"by ", d)),
        _ => Some(put_word(out, to, opening(node))),
    }
}

// Writes the figure whose nodes begin at a place, as far as there is room: where its nodes and its bytes end; nothing if no figure stands there. At most so deep.
// Here, below and in `measure_at` the row is a slice with a bound: a struct of both would be opened in each clause. So with the place to write at, which is within 1,000 bytes for each node before.
fn write_figure(
    nodes: &[Node],
    at: usize,
    falling: usize,
    out: &mut [u8],
    to: usize,
) -> Option<(usize, usize)>
    requires few { length nodes.now ≤ 256 }
    requires low { to ≤ 1000 * at }
    ensures { MatchOption result (figure_spelled nodes.now falling at ≡ None) (Wrote (figure_spelled nodes.now falling at) out.old out.new to at (length nodes.now)) }
{
    if falling == 0 || nodes.len() <= at {
        return None;
    }
    let node = nodes[at];
    if !figural(node) {
        return None;
    }
    let next = put_first(out, to, node)?;
    if single(node) {
        return Some((at + 1, next));
    }
    let (behind, next) = write_figure(nodes, at + 1, falling - 1, out, next)?;
    let next = put_word(out, next, middle(node));
    let (behind, next) = write_figure(nodes, behind, falling - 1, out, next)?;
    Some((behind, put_word(out, next, ending(node))))
}

// Writes the figure of a contract that has one, and the word behind it.
fn write_scale(
    nodes: &[Node],
    node: Node,
    at: usize,
    falling: usize,
    out: &mut [u8],
    to: usize,
) -> Option<(usize, usize)>
    requires few { length nodes.now ≤ 256 }
    requires within { at ≤ length nodes.now }
    requires low { to ≤ 1000 * at }
    ensures { MatchOption result (scale_spelled nodes.now node falling at ≡ None) (Scaled (scale_spelled nodes.now node falling at) out.old out.new to at (length nodes.now)) }
{
    if !scaled(node) {
        return Some((at, to));
    }
    let (behind, next) = write_figure(nodes, at, falling, out, to)?;
    Some((behind, put_word(out, next, scaling(node))))
}

// Writes the contract whose nodes begin at a place, as far as there is room: where its nodes and its bytes end; nothing if no contract stands there. At most so deep. It begins as `write_figure`, but goes on by other words.
fn write_at(
    nodes: &[Node],
    at: usize,
    falling: usize,
    out: &mut [u8],
    to: usize,
) -> Option<(usize, usize)>
    requires few { length nodes.now ≤ 256 }
    requires low { to ≤ 1000 * at }
    ensures { MatchOption result (contract_spelled nodes.now falling at ≡ None) (Wrote (contract_spelled nodes.now falling at) out.old out.new to at (length nodes.now)) }
{
    if falling == 0 || nodes.len() <= at {
        return None;
    }
    let node = nodes[at];
    if figural(node) {
        return None;
    }
    let next = put_first(out, to, node)?;
    if single(node) {
        return Some((at + 1, next));
    }
    let (behind, next) = write_scale(nodes, node, at + 1, falling, out, next)?;
    let (behind, next) = write_at(nodes, behind, falling - 1, out, next)?;
    if !pair(node) {
        return Some((behind, put_word(out, next, ending(node))));
    }
    let next = put_word(out, next, middle(node));
    let (behind, next) = write_at(nodes, behind, falling - 1, out, next)?;
    Some((behind, put_word(out, next, ending(node))))
}

// How many bytes the contract of a row of nodes has, if the nodes are those of one contract.
fn text_length(nodes: &[Node]) -> Option<usize>
    requires { length nodes.now ≤ 256 }
    ensures { MatchOption result (NotSpelled nodes.now) (SpelledWhole nodes.now) }
{
    let (next, long) = write_at(nodes, 0, 256, &mut [], 0)?;
    (next == nodes.len()).then_some(long)
}

// Writes the contract that a tree holds in front of `out`: how many bytes it has. Nothing is written on a refusal.
pub fn write_contract(tree: &Tree, out: &mut [u8]) -> Result<usize, WriteRefusal>
    ensures { MatchResult result (λ n. WrittenOut tree.now out.old out.new n) (λ e. NotWritten tree.now out.old e × (out.new ≡ out.old)) }
{
    let nodes = tree.row();
    let long = text_length(nodes).ok_or(WriteRefusal::NoContract)?;
    if out.len() < long {
        return Err(WriteRefusal::NoRoom);
    }
    write_at(nodes, 0, 256, out, 0);
    Ok(long)
}
