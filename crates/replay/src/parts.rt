// Where a part of a contract ends in the row of its nodes, in which each stands before what is within it.
ghost use Rattle.std.specs.Prelude.{◌≡◌, ◌≤◌};
ghost use Rattle.replay.specs.Parts.{node_in, within, behind};

use texts::nodes::Node;

// The node at a place; past the end it is nothing.
pub(crate) fn node(nodes: &[Node], i: usize) -> Node
    ensures { result ≡ node_in nodes.now i }
{
    nodes.get(i).copied().unwrap_or(Node::Nothing)
}

// How many parts stand right within a node.
fn within(node: Node) -> usize
    ensures is { result ≡ within node }
    ensures few { result ≤ 3 }
{
    match node {
        Node::If => 3,
        Node::Both | Node::Choice | Node::Of | Node::When => 2,
        Node::Plus | Node::Minus | Node::Times | Node::Max | Node::Less => 2,
        Node::Turned | Node::On(_) | Node::By(_) => 1,
        Node::Nothing | Node::Pays(_, _) => 0,
        Node::Fixed(_) | Node::Rate(_, _) | Node::Day => 0,
    }
}

// The place behind the contract or figure at a place.
pub(crate) fn behind(nodes: &[Node], from: usize) -> usize
    ensures { result ≡ behind (node_in nodes.now) from }
{
    // Each node is looked at without asking whether there is one: this is where a wide contract takes its time.
    let end = nodes.len().min(256);
    let mut more = 1;
    let mut i = from;
    // A `while`: it ends by what is still to come, and the place at which it ends is the result.
    while more > 0 && i < end {
        more = more - 1 + within(nodes[i]);
        i += 1;
    }
    // Past the last node each place is nothing, and one part less is to come.
    if i < 256 { (i + more).min(256) } else { i }
}
