// A contract's parts in a row, each before what stands within it.
ghost use Rattle.std.specs.Prelude.{◌≡◌, ◌<◌, ◌≤◌, min, List, [], ◌∷◌, ◌++◌, length, slice_index_or};
ghost use Rattle.texts.specs.Nodes.{Holds, Grown};

use arrayvec::ArrayVec;

// A part of a contract or of a figure.
#[derive(Clone, Copy, Default)]
pub enum Node {
    #[default]
    Nothing,
    Pays(u64, i64),
    Turned,
    Both,
    Choice,
    If,
    Of,
    On(u64),
    When,
    By(u64),
    Fixed(i64),
    Rate(u64, u64),
    Day,
    Plus,
    Minus,
    Times,
    Max,
    Less,
}

// The nodes of one contract, and one more where there are above 256, so that too long a row is known by its length.
#[derive(Drop)]
pub struct Tree {
    nodes: ArrayVec<Node, 257>,
}

impl Tree {
    pub fn new() -> Tree
        ensures { Holds result [] }
    {
        Tree {
            nodes: ArrayVec::new(),
        }
    }

    pub(crate) fn clear(&mut self)
        ensures { Holds self.new [] }
    {
        self.nodes.clear();
    }

    // One node more; behind 257 it changes nothing.
    pub(crate) fn push(&mut self, node: Node)
        ensures { Grown self.old self.new (node ∷ []) }
    {
        let _ = self.nodes.try_push(node);
    }

    // How many nodes there are, and so where the next goes.
    pub(crate) fn count(&self) -> usize
        ensures { (ns : List Node) → Holds self.now ns → result ≡ min (length ns) 257 }
    {
        self.nodes.len()
    }

    // One of the nodes.
    pub fn node(&self, i: usize) -> Node
        ensures { (ns : List Node) → Holds self.now ns → length ns ≤ 256 → i < length ns → result ≡ slice_index_or ns i Node.Nothing }
    {
        self.nodes.get(i).copied().unwrap_or(Node::Nothing)
    }

    // The nodes in a row; none if there are more than 256.
    pub fn row(&self) -> &[Node]
        ensures few { length result.now ≤ 256 }
        ensures all { (ns : List Node) → Holds self.now ns → length ns ≤ 256 → result.now ≡ ns }
        ensures held { 0 < length result.now → Holds self.now result.now }
        ensures none { (ns : List Node) → Holds self.now ns → 256 < length ns → result.now ≡ [] }
    {
        if self.nodes.len() <= 256 {
            &self.nodes
        } else {
            &[]
        }
    }

    // Another node in the place of one.
    pub(crate) fn put(&mut self, at: usize, node: Node)
        ensures { (ns ms : List Node) (old : Node) → Holds self.old (ns ++ old ∷ ms) → at ≡ min (length ns) 257 → Holds self.new (ns ++ node ∷ ms) }
    {
        if let Some(held) = self.nodes.get_mut(at) {
            *held = node;
        }
    }
}
