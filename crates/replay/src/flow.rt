// What flows on a day under a contract that began on a day.
ghost use Rattle.replay.specs.Dues.{Adds};
ghost use Rattle.replay.specs.Flow.{seen_by, flow_at, next_of, inside};
ghost use Rattle.std.specs.Prelude.{◌≡◌, ◌<◌};

use crate::choices::Way;
use crate::days::Days;
use crate::dues::{Above, Due, Dues};
use crate::parts::{behind, node};
use texts::nodes::Node;

// What a deal is worked out from: the days, the nodes of its contract, and its number.
#[derive(Clone, Copy)]
pub(crate) struct Deal<'a> {
    pub(crate) days: Days<'a>,
    pub(crate) nodes: &'a [Node],
    pub(crate) number: u32,
}

// A part of a contract: the place of its node, the day on which it begins, and the way to it.
#[derive(Clone, Copy)]
pub struct Part {
    pub at: usize,
    pub day: usize,
    pub way: Way,
}

impl Part {
    // The part at a place within this one, a step further, that begins on a day.
    fn inside(self, at: usize, day: usize, step: u8) -> Part
        ensures { result ≡ inside self at day step }
    {
        Part {
            at,
            day,
            way: self.way.step(step),
        }
    }
}

impl<'a> Deal<'a> {
    // The part that goes on in the place of one with a choice, if, on, when or by, if one does.
    fn next(&self, node: Node, part: Part) -> Option<Part>
        requires { part.at < 256 }
        ensures { result ≡ next_of (seen_by self.now) part node }
    {
        let i = part.at + 1;
        let t = part.day;
        // On a day that is not known nothing is chosen, and a figure has no value.
        match node {
            Node::Choice => {
                self.days.days.get(t)?;
                if self.days.chosen_on(t, self.number, part.way) {
                    Some(part.inside(behind(self.nodes, i), t, 1))
                } else {
                    Some(part.inside(i, t, 0))
                }
            }
            Node::If => {
                self.days.days.get(t)?;
                let x = behind(self.nodes, i);
                if self.value(t, i) == 0 {
                    Some(part.inside(behind(self.nodes, x), t, 1))
                } else {
                    Some(part.inside(x, t, 0))
                }
            }
            Node::On(d) => (t as u64 <= d).then_some(part.inside(i, d as usize, 0)),
            Node::When => {
                let v = self.first_true(t, i)?;
                Some(part.inside(behind(self.nodes, i), v, 0))
            }
            Node::By(d) => {
                let v = self.first_chosen(part.way, d, t)?;
                Some(part.inside(i, v, 0))
            }
            _ => None,
        }
    }

    // What flows on day u under a part, at most n deep, is put behind what is in `out`. The deal is lent, since it would be copied at each part.
    pub(crate) fn flow(&self, u: usize, n: usize, part: Part, out: &mut Dues)
        ensures { Adds out.old out.new (flow_at (seen_by self.now) u n part) }
    {
        let i = part.at;
        let t = part.day;
        if n == 0 || i >= 256 {
            return;
        }
        let node = node(self.nodes, i);
        match node {
            Node::Pays(currency, amount) => {
                if t == u && t < self.days.days.len() {
                    out.push(Due { currency, amount });
                }
            }
            Node::Turned => {
                let from = out.count();
                self.flow(u, n - 1, part.inside(i + 1, t, 0), out);
                out.lift_from(from, Above::Turn);
            }
            Node::Both => {
                self.flow(u, n - 1, part.inside(i + 1, t, 0), out);
                self.flow(u, n - 1, part.inside(behind(self.nodes, i + 1), t, 1), out);
            }
            Node::Of => {
                if t < self.days.days.len() {
                    let v = self.value(t, i + 1);
                    let x = behind(self.nodes, i + 1);
                    let from = out.count();
                    self.flow(u, n - 1, part.inside(x, t, 0), out);
                    out.lift_from(from, Above::Scale(v));
                }
            }
            _ => {
                if let Some(next) = self.next(node, part) {
                    self.flow(u, n - 1, next, out);
                }
            }
        }
    }
}
