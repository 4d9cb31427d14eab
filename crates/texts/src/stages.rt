// How far the house is built: which contracts it takes yet.
ghost use Rattle.std.specs.Prelude.{◌≡◌, ◌≤◌};
ghost use Rattle.deals.specs.Contract.{Contract};
ghost use Rattle.deals.specs.Promise.{marks};
ghost use Rattle.texts.specs.Nodes.{Holds, nodes_of};
ghost use Rattle.texts.specs.Stages.{thin_node, all_thin, built_at};

use crate::nodes::{Node, Tree};

// Only nothing, pays, turned, both and on a day; or all.
#[derive(Clone, Copy)]
pub enum Stage {
    Thin,
    All,
}

// Whether the thin house knows a node.
fn known(node: Node) -> bool
    ensures { result ≡ thin_node node }
{
    matches!(
        node,
        Node::Nothing | Node::Pays(_, _) | Node::Turned | Node::Both | Node::On(_)
    )
}

// Whether the thin house knows all nodes of a row.
fn all_known(nodes: &[Node]) -> bool
    ensures { result ≡ all_thin nodes.now }
{
    nodes.iter().all(|node| known(*node))
}

// Whether the house takes a contract yet.
pub fn built(tree: &Tree, stage: Stage) -> bool
    ensures { (x : Contract) → Holds tree.now (nodes_of x) → marks x ≤ 256 → result ≡ built_at stage x }
{
    // A match, so that each further stage has to say what it takes.
    match stage {
        Stage::Thin => all_known(tree.row()),
        Stage::All => true,
    }
}
