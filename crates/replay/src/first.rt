// The first day, from a day on, on which what waits begins.
ghost use Rattle.std.specs.Prelude.{◌≡◌};
ghost use Rattle.replay.specs.Choices.{chosen_on};
ghost use Rattle.replay.specs.Days.{rates_of};
ghost use Rattle.replay.specs.Parts.{node_in};
ghost use Rattle.replay.specs.First.{first_known, true_on, taken_on};

use crate::choices::Way;
use crate::flow::Deal;

impl<'a> Deal<'a> {
    // The first known day from day t on on which the figure at place i isn't 0.
    pub(crate) fn first_true(self, t: usize, i: usize) -> Option<usize>
        ensures { result ≡ first_known self.entry.days (true_on (rates_of self.entry.days) (node_in self.entry.nodes.now) i) t }
    {
        (t..self.days.days.len()).find(|&u| self.value(u, i) != 0)
    }

    // The first known day from day t on, and up to day d, on which a part is chosen, by the way to it.
    pub(crate) fn first_chosen(self, way: Way, d: u64, t: usize) -> Option<usize>
        ensures { result ≡ first_known self.entry.days (taken_on (chosen_on self.entry.days.kept.now self.entry.days.days.now self.entry.number) d way) t }
    {
        (t..self.days.days.len()).find(|&u| u as u64 <= d
            && self.days.chosen_on(u, self.number, way))
    }
}
