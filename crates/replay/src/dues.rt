// What flows on a day under one contract: amounts with their currencies, one behind the other.
ghost use Rattle.std.specs.Prelude.{◌≡◌, min, List, [], ◌∷◌, length};
ghost use Rattle.replay.specs.Dues.{lifted, Held, Adds, Lifts};

use arrayvec::ArrayVec;
use figures::product;

// An amount of a currency, to who holds the contract.
#[derive(Clone, Copy, Default)]
pub struct Due {
    pub currency: u64,
    pub amount: i64,
}

// What stands above a part: the other way round, or as much as a figure says. Neither is the lack of the other, so this is no Option.
#[derive(Clone, Copy)]
pub enum Above {
    Turn,
    Scale(i64),
}

// The first 257 amounts: one more than a contract can bring. As the `Tree` of a contract's nodes: what the two share is the library's `ArrayVec`.
#[derive(Drop)]
pub struct Dues {
    items: ArrayVec<Due, 257>,
}

// An amount as it comes out above.
fn lift(above: Above, amount: i64) -> i64
    ensures { result ≡ lifted above amount }
{
    match above {
        Above::Turn => amount.wrapping_neg(),
        Above::Scale(v) => product(amount, v),
    }
}

impl Dues {
    pub(crate) fn new() -> Dues
        ensures { Held result [] }
    {
        Dues {
            items: ArrayVec::new(),
        }
    }

    pub(crate) fn push(&mut self, due: Due)
        ensures { Adds self.old self.new (due ∷ []) }
    {
        let _ = self.items.try_push(due);
    }

    pub(crate) fn count(&self) -> usize
        ensures { (xs : List Due) → Held self.now xs → result ≡ min (length xs) 257 }
    {
        self.items.len()
    }

    pub(crate) fn row(&self) -> &[Due]
        ensures { result.now ≡ self.now.items.items }
    {
        self.items.as_slice()
    }

    // All amounts from a place on come out above.
    pub(crate) fn lift_from(&mut self, from: usize, above: Above)
        ensures { Lifts self.old self.new from above }
    {
        // By index: the amounts from a place on would have to be cut out first, and the place may lie past their end.
        for i in from..self.items.len() {
            self.items[i].amount = lift(above, self.items[i].amount);
        }
    }
}
