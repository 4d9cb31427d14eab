// Numbers of a text that have a limit: the first that is out of range is noted as they are read.
ghost use Rattle.std.specs.Prelude.{◌≡◌, ℕ, List, [], ◌∷◌, ◌++◌};
ghost use Rattle.texts.specs.Bounds.{Numeral};
ghost use Rattle.texts.specs.Ranges.{Counts};
ghost use Rattle.texts.specs.Reading.{capped};

// How many rates and currencies there are, and the place of the first number out of range.
#[derive(Drop)]
pub(crate) struct Ranges {
    pub rates: u64,
    pub currencies: u64,
    pub first: Option<usize>,
}

impl Ranges {
    // No number was read yet.
    pub(crate) fn new(rates: u64, currencies: u64) -> Ranges
        ensures { Counts result rates currencies [] }
    {
        Ranges {
            rates,
            currencies,
            first: None,
        }
    }

    // The next number stands at a place, and must be below a limit.
    pub(crate) fn note(&mut self, at: usize, number: u64, limit: u64)
        ensures { (rs cs n : ℕ) (ks : List Numeral) → Counts self.old rs cs ks → number ≡ capped n → Counts self.new rs cs (ks ++ record { place = at; limit = limit; value = n } ∷ []) }
    {
        if self.first.is_none() && limit <= number {
            self.first = Some(at);
        }
    }
}
