// The value of a figure on a day.
ghost use Rattle.replay.specs.Days.{rates_of};
ghost use Rattle.replay.specs.Figure.{combined, figure_at};
ghost use Rattle.replay.specs.Meaning.{Worth};
ghost use Rattle.replay.specs.Parts.{node_in};
ghost use Rattle.std.specs.Prelude.{◌≡◌};

use crate::days::Days;
use crate::flow::Deal;
use crate::parts::{behind, node};
use figures::{difference, larger, less, product, sum};
use texts::nodes::Node;

// What a node makes of the values of the two figures within it.
fn combined(node: Node, a: i64, b: i64) -> i64
    ensures { result ≡ combined node a b }
{
    match node {
        Node::Plus => sum(a, b),
        Node::Minus => difference(a, b),
        Node::Times => product(a, b),
        Node::Max => larger(a, b),
        Node::Less => less(a, b),
        _ => 0,
    }
}

impl<'a> Deal<'a> {
    // The value on day t of the figure at place i: what the meaning says, if what is kept is that of some days and the nodes from there on are those of a figure within the limits.
    pub(crate) fn value(self, t: usize, i: usize) -> i64
        ensures is { result ≡ figure_at (rates_of self.entry.days) (node_in self.entry.nodes.now) t 256 i }
        ensures meant { Worth self.entry.days.kept.now self.entry.days.days.now (node_in self.entry.nodes.now) t i result }
    {
        self.days.figure(self.nodes, t, 256, i)
    }
}

impl<'a> Days<'a> {
    // The value on day t of the figure at place i of some nodes, at most n deep. What it is worked out from is lent, since it would be copied at each node.
    fn figure(&self, nodes: &[Node], t: usize, n: usize, i: usize) -> i64
        ensures { result ≡ figure_at (rates_of self.now) (node_in nodes.now) t n i }
    {
        if n == 0 || i >= 256 {
            return 0;
        }
        let node = node(nodes, i);
        match node {
            Node::Fixed(a) => a,
            Node::Rate(k, m) => self.rate_before(t, k as usize, m as usize),
            Node::Day => (t as u64).cast_signed(),
            Node::Plus | Node::Minus | Node::Times | Node::Max | Node::Less => {
                let a = self.figure(nodes, t, n - 1, i + 1);
                let b = self.figure(nodes, t, n - 1, behind(nodes, i + 1));
                combined(node, a, b)
            }
            _ => 0,
        }
    }
}
