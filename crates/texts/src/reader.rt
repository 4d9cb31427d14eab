// A text while it is read: its nodes so far, and the first of its numbers that is out of range. One serves many texts, one after the other.
ghost use Rattle.std.specs.Prelude.{[]};
ghost use Rattle.texts.specs.Nodes.{Holds};
ghost use Rattle.texts.specs.Ranges.{Counts};

use crate::nodes::Tree;
use crate::ranges::Ranges;

#[derive(Drop)]
pub struct Reading {
    pub(crate) ranges: Ranges,
    pub tree: Tree,
}

impl Reading {
    // Nothing was read yet.
    pub fn new() -> Reading
        ensures { Holds result.tree [] }
    {
        Reading {
            ranges: Ranges::new(0, 0),
            tree: Tree::new(),
        }
    }

    // Begins anew, with so many rates and currencies.
    pub(crate) fn begin(&mut self, rates: u16, currencies: u8)
        ensures noted { Counts self.new.ranges rates currencies [] }
        ensures held { Holds self.new.tree [] }
    {
        self.ranges = Ranges::new(u64::from(rates), u64::from(currencies));
        self.tree.clear();
    }
}
