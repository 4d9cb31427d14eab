// Reads and writes the texts of contracts.
#![tactic(auto)]

ghost use Rattle.texts.specs.Bounds.{OneVerdict, FitsByText, HasTaken};
ghost use Rattle.texts.specs.Stages.{ThinTaken};
ghost use Rattle.texts.specs.Written.{HasText, ReadAgain, OneAtMost};

mod contracts;
mod figures;
mod limits;
pub mod nodes;
mod numbers;
mod ranges;
pub mod reader;
pub mod reading;
pub mod stages;
mod words;
pub mod writing;

// Every contract has a text, what is written of it is read as it, and a text is one contract's at most.
pub fn written_stands()
    ensures texts { HasText }
    ensures again { ReadAgain }
    ensures one { OneAtMost }
{}

// A text gets one verdict at most, limits and the numbers of a text say whether its contract is in bounds, every contract in bounds has a text that is taken, and every thin one is built.
pub fn verdicts_stand()
    ensures one { OneVerdict }
    ensures fits { FitsByText }
    ensures taken { HasTaken }
    ensures thin { ThinTaken }
{}
