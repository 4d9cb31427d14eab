// A deal's part of the lent bytes, 16 bytes at a time: rows of what waits, nodes of the contract, and entries for what stands above a part. All lies in lent bytes, so that each is named by its number.
ghost use Rattle.std.specs.Prelude.{◌≡◌, ◌<◌};
ghost use Rattle.residual.specs.Layout.{row_at, put_row, node_at, put_node, above_at, put_turn};

use crate::deal::PART;
use octets::Word;

pub const ROWS: usize = 96;

const NODES: usize = 256;

const NODES_AT: usize = 1536;

const ABOVE_AT: usize = 5632;

// A part that waits for a day: where it begins and ends among the nodes, and the entry of what stands above it.
#[derive(Clone, Copy, Default)]
pub struct Row {
    pub day: u32,
    pub part: u16,
    pub end: u16,
    pub above: u16,
}

// A part of a contract. The first part under it stands next to it; of two, the second stands at the place that is named.
#[derive(Clone, Copy)]
pub enum Node {
    Nothing,
    Pays(u16, i64),
    Turned,
    Both(u16),
    OnDay(u32),
}

#[tactic(auto, unfolding(crate::specs::Layout::row_at))]
pub(crate) fn read_row(part: &[u8; PART], k: usize) -> Row
    requires { k < 96 }
    ensures { result ≡ row_at part.now k }
{
    let at = 16 * k;
    Row {
        day: u32::read(part, at),
        part: u16::read(part, at + 4),
        end: u16::read(part, at + 6),
        above: u16::read(part, at + 8),
    }
}

#[tactic(auto, unfolding(crate::specs::Layout::put_row))]
pub(crate) fn write_row(part: &mut [u8; PART], k: usize, row: Row)
    requires { k < 96 }
    ensures { part.new ≡ put_row part.old k row }
{
    let at = 16 * k;
    row.day.write(part, at);
    row.part.write(part, at + 4);
    row.end.write(part, at + 6);
    row.above.write(part, at + 8);
}

// The node at a place; it is nothing where there is none. The lent bytes have a number for each kind of node.
#[tactic(auto, unfolding(crate::specs::Layout::node_at, crate::specs::Layout::node_in))]
pub(crate) fn read_node(part: &[u8; PART], i: usize) -> Node
    ensures { result ≡ node_at part.now i }
{
    if i >= NODES {
        return Node::Nothing;
    }
    let at = NODES_AT + 16 * i;
    match u16::read(part, at) {
        1 => Node::Pays(u16::read(part, at + 2), i64::read(part, at + 8)),
        2 => Node::Turned,
        3 => Node::Both(u16::read(part, at + 4)),
        4 => Node::OnDay(u32::read(part, at + 8)),
        _ => Node::Nothing,
    }
}

#[tactic(auto, unfolding(crate::specs::Layout::put_node))]
pub(crate) fn write_node(part: &mut [u8; PART], i: usize, node: Node)
    requires { i < 256 }
    ensures { part.new ≡ put_node part.old i node }
{
    let at = NODES_AT + 16 * i;
    match node {
        Node::Nothing => 0u16.write(part, at),
        Node::Pays(k, a) => {
            1u16.write(part, at);
            k.write(part, at + 2);
            a.write(part, at + 8);
        }
        Node::Turned => 2u16.write(part, at),
        Node::Both(second) => {
            3u16.write(part, at);
            second.write(part, at + 4);
        }
        Node::OnDay(day) => {
            4u16.write(part, at);
            day.write(part, at + 8);
        }
    }
}

// What stands above, by the number of its entry: it is turned, and this is the entry of what stands above that. Nothing for 0 and where there is no entry.
#[tactic(auto, unfolding(crate::specs::Layout::above_at, crate::specs::Layout::above_in))]
pub(crate) fn read_above(part: &[u8; PART], j: usize) -> Option<u16>
    ensures { result ≡ above_at part.now j }
{
    if j == 0 || j >= NODES {
        return None;
    }
    let at = ABOVE_AT + 16 * j;
    match u16::read(part, at) {
        1 => Some(u16::read(part, at + 2)),
        _ => None,
    }
}

// An entry for what is turned.
#[tactic(auto, unfolding(crate::specs::Layout::put_turn))]
pub(crate) fn write_turn(part: &mut [u8; PART], j: usize, over: u16)
    requires { j < 256 }
    ensures { part.new ≡ put_turn part.old j over }
{
    let at = ABOVE_AT + 16 * j;
    1u16.write(part, at);
    over.write(part, at + 2);
}
