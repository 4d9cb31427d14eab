// Limits: how large a figure can be, what a contract can move, and how deep its choices are, worked out over its nodes.
ghost use Rattle.std.specs.Prelude.{◌≡◌, ◌+◌, ◌*◌, ◌/◌, ◌<◌, ◌≤◌, length, IfSome, MatchBool};
ghost use Rattle.texts.specs.Limits.{leaf_size, joined_size, below_32, largest_at, LargestLow, single_measure, scale_at, is_pair, together, alone, bounded, measured_at, MeasureLow};
ghost use Rattle.texts.specs.Bounds.{IsWithinLimits};
ghost use Rattle.texts.specs.Nodes.{Holds, nodes_of};
ghost use Rattle.deals.specs.Contract.{Contract};
ghost use Rattle.deals.specs.Promise.{below};

use crate::nodes::{Node, Tree};
use deals::larger_of;

const MILLION: u64 = 1_000_000;

// The product of two numbers over a million.
fn over_million(a: u64, b: u64) -> u64
    requires left { a < 1099511627776 }
    requires right { b < 4294967296 }
    ensures { result ≡ a * b / 1000000 }
{
    a / MILLION * b + a % MILLION * b / MILLION
}

// How large a figure of one node can be.
fn leaf(node: Node) -> Option<u64>
    ensures { result ≡ leaf_size node }
{
    match node {
        Node::Fixed(a) => Some(a.unsigned_abs()),
        Node::Rate(_, _) => Some(1_000_000_000),
        Node::Day => Some(65536),
        _ => None,
    }
}

// How large a figure of two can be.
fn joined(node: Node, e: u64, f: u64) -> Option<u64>
    requires left { e < 4294967296 }
    requires right { f < 4294967296 }
    ensures { result ≡ joined_size node e f }
{
    match node {
        Node::Plus | Node::Minus | Node::Max => Some(e + f),
        Node::Times => Some(over_million(e, f) + 1),
        Node::Less => Some(1),
        _ => None,
    }
}

// A size, and the nodes behind, if it is below 2^32.
fn small(size: u64, next: usize) -> Option<(u64, usize)>
    ensures { result ≡ below_32 size next }
{
    (size < 4294967296).then_some((size, next))
}

// How large the figure can be whose nodes begin at a place, and where those behind it begin; nothing if a limit is passed. At most so deep.
// It begins as `write_figure` does, and `measure_at` as `write_at`, since they walk over the same nodes: what is done at each, and promised, differs.
fn largest(nodes: &[Node], at: usize, falling: usize) -> Option<(u64, usize)>
    ensures is { result ≡ largest_at nodes.now falling at }
    ensures low { IfSome result (LargestLow nodes.now at) }
{
    if falling == 0 || nodes.len() <= at {
        return None;
    }
    let node = nodes[at];
    if let Some(size) = leaf(node) {
        return small(size, at + 1);
    }
    let (e, next) = largest(nodes, at + 1, falling - 1)?;
    let (f, next) = largest(nodes, next, falling - 1)?;
    let size = joined(node, e, f)?;
    small(size, next)
}

// What a contract can move, how many payments it can come to, how deep its choices are, and where the nodes behind it begin.
#[derive(Clone, Copy)]
pub struct Measure {
    moves: u64,
    parts: u64,
    deep: u64,
    next: usize,
}

// The measure of a contract of one node.
fn single(node: Node, next: usize) -> Option<Measure>
    ensures { result ≡ single_measure node next }
{
    match node {
        Node::Nothing => Some(Measure {
            moves: 0,
            parts: 0,
            deep: 0,
            next,
        }),
        Node::Pays(_, a) => Some(Measure {
            moves: a.unsigned_abs(),
            parts: 1,
            deep: 0,
            next,
        }),
        _ => None,
    }
}

// The figure of a contract that has one: how large it can be, and where the nodes behind it begin.
fn scale(nodes: &[Node], node: Node, at: usize, falling: usize) -> Option<(u64, usize)>
    requires { at ≤ length nodes.now }
    ensures is { result ≡ scale_at nodes.now node falling at }
    ensures low { IfSome result (λ p. (p.0 < 4294967296) × (at ≤ p.1) × (p.1 ≤ length nodes.now)) }
{
    match node {
        Node::If | Node::Of | Node::When => largest(nodes, at, falling),
        _ => Some((0, at)),
    }
}

// Whether a contract has two parts.
pub(crate) fn pair(node: Node) -> bool
    ensures { result ≡ is_pair node }
{
    matches!(node, Node::Both | Node::Choice | Node::If)
}

// How deep the choices of a part are, seen from one level above.
fn lower(deep: u64) -> u64
    requires { deep ≤ 256 }
    ensures { result ≡ below deep }
{
    if deep == 0 { 0 } else { deep + 1 }
}

// The measure of a contract of two parts.
fn both(node: Node, x: Measure, y: Measure) -> Measure
    requires moved { (x.moves < 1099511627776) × (y.moves < 1099511627776) }
    requires few { (x.parts ≤ 256) × (y.parts ≤ 256) × (x.deep ≤ 256) × (y.deep ≤ 256) }
    ensures { result ≡ together node x y }
{
    let deep = larger_of(lower(x.deep), lower(y.deep));
    let deep = match node {
        Node::Choice => larger_of(1, deep),
        _ => deep,
    };
    Measure {
        moves: x.moves + y.moves,
        parts: x.parts + y.parts,
        deep,
        next: y.next,
    }
}

// The measure of a contract of one part, and of a figure that can be so large.
fn under(node: Node, size: u64, x: Measure) -> Option<Measure>
    requires moved { (x.moves < 1099511627776) × (size < 4294967296) }
    requires few { (x.parts ≤ 256) × (x.deep ≤ 256) }
    ensures { result ≡ alone node size x }
{
    let deep = lower(x.deep);
    match node {
        Node::Turned | Node::On(_) | Node::When => Some(Measure { deep, ..x }),
        Node::By(_) => Some(Measure {
            deep: larger_of(1, deep),
            ..x
        }),
        Node::Of => Some(Measure {
            moves: over_million(x.moves, size) + x.parts,
            deep,
            ..x
        }),
        _ => None,
    }
}

// A measure, if what moves is below 2^40.
fn moderate(m: Measure) -> Option<Measure>
    ensures { result ≡ bounded m }
{
    (m.moves < 1099511627776).then_some(m)
}

// The measure of the contract whose nodes begin at a place; nothing if a limit is passed. At most so deep. As in `write_figure` the row is a slice with a bound.
fn measure_at(nodes: &[Node], at: usize, falling: usize) -> Option<Measure>
    requires { length nodes.now ≤ 256 }
    ensures is { result ≡ measured_at nodes.now falling at }
    ensures low { IfSome result (MeasureLow nodes.now at) }
{
    if falling == 0 || nodes.len() <= at {
        return None;
    }
    let node = nodes[at];
    if let Some(m) = single(node, at + 1) {
        return moderate(m);
    }
    let (size, next) = scale(nodes, node, at + 1, falling)?;
    let x = measure_at(nodes, next, falling - 1)?;
    if pair(node) {
        let y = measure_at(nodes, x.next, falling - 1)?;
        return moderate(both(node, x, y));
    }
    moderate(under(node, size, x)?)
}

// Whether a contract has at most 256 marks and choices at most 64 deep, and passes no limit.
pub(crate) fn within_limits(tree: &Tree) -> bool
    ensures { (x : Contract) → Holds tree.now (nodes_of x) → MatchBool result (IsWithinLimits x) (IsWithinLimits x → ⊥) }
{
    measure_at(tree.row(), 0, 256).is_some_and(|m| m.deep <= 65)
}
