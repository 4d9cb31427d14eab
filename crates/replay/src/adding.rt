// What the deals come to on the last day, added up for each currency.
ghost use Rattle.std.specs.Prelude.{◌≡◌, ◌≤◌, length};
ghost use Rattle.replay.specs.Adding.{DueAdded, DuesAdded, ContractRead, DealFlows, DealAdded};

use crate::choices::Way;
use crate::days::Days;
use crate::dues::{Above, Due, Dues};
use crate::flow::{Deal, Part};
use crate::listing::DealIn;
use figures::sum;
use mornings::Start;
use texts::nodes::Tree;
use texts::reader::Reading;
use texts::reading::read_part;

// The days, and the start with which they were taken.
#[derive(Clone, Copy)]
pub(crate) struct Book<'a> {
    pub(crate) days: Days<'a>,
    pub(crate) start: Start,
}

// An amount more in its currency, if there is such a one.
fn add_due(sums: &mut [i64], due: Due)
    ensures { DueAdded due sums.old sums.new }
{
    let k = due.currency as usize;
    if k < sums.len() {
        sums[k] = sum(sums[k], due.amount);
    }
}

// All amounts more.
fn add_dues(dues: &Dues, sums: &mut [i64])
    ensures { DuesAdded dues.now sums.old sums.new }
{
    for due in dues.row() {
        add_due(sums, *due);
    }
}

impl<'a> Book<'a> {
    // The contract of a deal, read anew from the bytes of its morning.
    fn read_contract(self, deal: DealIn) -> Option<Tree>
        ensures { ContractRead self.entry.start self.entry.days.kept.now self.entry.days.days.now deal result }
    {
        let day = self.days.days.get(deal.morning)?;
        let bytes = self.days.bytes_of(*day);
        let from = deal.at.text_at;
        let to = deal.at.text_end;
        if from > to || to > bytes.len() {
            return None;
        }
        let mut read = Reading::new();
        let start = self.start;
        read_part(bytes, from, to, start.rates, start.currencies, &mut read).ok()?;
        Some(read.tree)
    }

    // What flows on the last day under deal number c.
    fn flow_deal(self, deal: DealIn, c: u32) -> Option<Dues>
        ensures { DealFlows self.entry.start self.entry.days.kept.now self.entry.days.days.now deal c result }
    {
        let last = self.days.days.len().checked_sub(1)?;
        let tree = self.read_contract(deal)?;
        let seen = Deal {
            days: self.days,
            nodes: tree.row(),
            number: c,
        };
        let whole = Part {
            at: 0,
            day: deal.at.day as usize,
            way: Way::default(),
        };
        let mut dues = Dues::new();
        seen.flow(last, 256, whole, &mut dues);
        Some(dues)
    }

    // What the lower house of a deal's pair pays the other on the last day under it is added to what it pays.
    pub(crate) fn add_deal(self, deal: DealIn, c: u32, sums: &mut [i64])
        ensures { DealAdded self.entry.start self.entry.days.kept.now self.entry.days.days.now deal c sums.old sums.new }
    {
        let Some(mut dues) = self.flow_deal(deal, c) else {
            return;
        };
        if deal.at.holder <= deal.at.other {
            dues.lift_from(0, Above::Turn);
        }
        add_dues(&dues, sums);
    }
}
