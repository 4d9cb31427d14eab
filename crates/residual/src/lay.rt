// Writes a contract's nodes into a deal's part: each at its place among the contract's marks.
ghost use Rattle.std.specs.Prelude.{◌≡◌, ◌≤◌, length};
ghost use Rattle.residual.specs.Laying.{laid, written};

use crate::cells::{Node, write_node};
use crate::deal::PART;
use texts::nodes::Node as Mark;

// The part of the contract whose marks begin at place i, at most n deep; the place behind it.
// A currency or a day is cut to the width of its place: try_from would ask for a way out that no contract in bounds takes.
#[tactic(auto, using(crate::proofs::Unroll::laid_steps), unfolding(crate::specs::Laying::by_mark, crate::specs::Laying::one_laid))]
pub(crate) fn lay(part: &mut [u8; PART], marks: &[Mark], n: usize, i: usize) -> usize
    requires few { length marks.now ≤ 256 }
    requires within { i ≤ length marks.now }
    ensures within { result ≤ length marks.now }
    ensures laid { written part.new result ≡ laid n marks.now i part.old }
{
    if n == 0 || i >= marks.len() {
        return i;
    }
    match marks[i] {
        Mark::Pays(k, a) => {
            write_node(part, i, Node::Pays((k % 65536) as u16, a));
            i + 1
        }
        Mark::Turned => {
            write_node(part, i, Node::Turned);
            lay(part, marks, n - 1, i + 1)
        }
        Mark::Both => {
            let second = lay(part, marks, n - 1, i + 1);
            write_node(part, i, Node::Both(second as u16));
            lay(part, marks, n - 1, second)
        }
        Mark::On(day) => {
            write_node(part, i, Node::OnDay((day % 4294967296) as u32));
            lay(part, marks, n - 1, i + 1)
        }
        _ => {
            write_node(part, i, Node::Nothing);
            i + 1
        }
    }
}
