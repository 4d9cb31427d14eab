// Reads a part of some bytes as the text of a contract.
ghost use Rattle.std.specs.Prelude.{◌≡◌, ℕ, ◌+◌, ◌<◌, ◌≤◌, [], length, MatchResult};
ghost use Rattle.deals.specs.Contract.{Contract};
ghost use Rattle.std.specs.List.{between};
ghost use Rattle.texts.specs.Text.{RefusedAt};
ghost use Rattle.texts.specs.Bounds.{TextTaken, TextRefused, PartRefused, refusal_number, refusal_place};
ghost use Rattle.texts.specs.Nodes.{Holds, nodes_of};
ghost use Rattle.texts.specs.Ranges.{Counts, WholeRead};

use crate::contracts::contract;
use crate::limits::within_limits;
use crate::reader::Reading;
use std::fmt;

// Why and where a text is refused: it is no contract's, or a number is out of range or a limit passed.
#[derive(Clone, Copy)]
pub enum TextRefusal {
    NoContract(usize),
    Limit(usize),
}

// Reads all of a text, or finds the first byte at which no contract's text goes on so.
fn read_whole(text: &[u8], read: &mut Reading) -> Result<(), usize>
    requires { Holds read.old.tree [] }
    ensures { MatchResult result (λ _. WholeRead text.now read.old read.new) (λ p. RefusedAt text.now p) }
{
    let to = contract(text, 0, read)?;
    if to < text.len() {
        return Err(to);
    }
    Ok(())
}

// Reads a text, for so many rates and currencies as the reading has begun with.
fn read_text(text: &[u8], read: &mut Reading) -> Result<(), TextRefusal>
    requires { Holds read.old.tree [] }
    ensures { (rates currencies : ℕ) → Counts read.old.ranges rates currencies [] → MatchResult result (λ _. (x : Contract) × TextTaken rates currencies text.now x × Holds read.new.tree (nodes_of x)) (λ e. TextRefused rates currencies text.now (refusal_number e) (refusal_place e) × (refusal_place e ≤ length text.now)) }
{
    if text.len() > 8192 {
        return Err(TextRefusal::Limit(0));
    }
    read_whole(text, read).map_err(TextRefusal::NoContract)?;
    if !within_limits(&read.tree) {
        return Err(TextRefusal::Limit(0));
    }
    match read.ranges.first {
        Some(place) => Err(TextRefusal::Limit(place)),
        None => Ok(()),
    }
}

impl TextRefusal {
    // The refusal of a text that begins at a place.
    fn behind(self, from: usize) -> TextRefusal
        requires { from + refusal_place self < 18446744073709551616 }
        ensures number { refusal_number result ≡ refusal_number self }
        ensures place { refusal_place result ≡ from + refusal_place self }
    {
        match self {
            TextRefusal::NoContract(place) => TextRefusal::NoContract(from + place),
            TextRefusal::Limit(place) => TextRefusal::Limit(from + place),
        }
    }
}

impl fmt::Display for TextRefusal {
    fn fmt<W: fmt::Write>(&self, f: &mut fmt::Formatter<W>) -> fmt::Result {
        match self {
            TextRefusal::NoContract(place) => write!(f, "refused 1 at {place}"),
            TextRefusal::Limit(place) => write!(f, "refused 2 at {place}"),
        }
    }
}

// Reads the bytes from one place to another as the text of a contract, with so many rates and currencies; its nodes are then in the tree of `read`, which is emptied on a refusal. They come as two numbers: a struct for callers would be taken apart in each clause.
pub fn read_part(
    bytes: &[u8],
    from: usize,
    to: usize,
    rates: u16,
    currencies: u8,
    read: &mut Reading,
) -> Result<(), TextRefusal>
    requires ordered { from ≤ to }
    requires within { to ≤ length bytes.now }
    ensures { MatchResult result (λ _. (x : Contract) × TextTaken rates currencies (between from to bytes.now) x × Holds read.new.tree (nodes_of x)) (λ e. PartRefused rates currencies (between from to bytes.now) from e × Holds read.new.tree []) }
{
    read.begin(rates, currencies);
    match read_text(&bytes[from..to], read) {
        Ok(()) => Ok(()),
        Err(refusal) => {
            read.tree.clear();
            Err(refusal.behind(from))
        }
    }
}
