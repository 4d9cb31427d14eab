// Lent bytes, 16,384 for each deal: its part, 12,288 of them; the rest is, at every deal whose number is a multiple of 256, the directory of that deal and the 255 behind it.
// Each function takes the bytes with a deal's number, and asks that the deal lies in them: a struct that holds the bytes would have to promise besides that they stay the same ones.
ghost use Rattle.std.specs.Prelude.{◌≡◌, ◌+◌, ◌*◌, ◌≤◌, length};
ghost use Rattle.settlement.specs.Directory.{entry_place, entry_in, entry_of, EntryPut};

use crate::room::SLOT;
use octets::Word;
use residual::deal::{PART, Summary};

const ENTRY: usize = 16;

// What the directory says of a deal: between whom it is, and what is kept beside its part.
#[derive(Clone, Copy)]
pub struct Entry {
    pub holder: u16,
    pub other: u16,
    pub kept: Summary,
}

fn entry_place(c: usize) -> usize
    requires { 16384 * c ≤ 18446744073709535232 }
    ensures { result ≡ entry_place c }
{
    256 * SLOT * (c / 256) + PART + ENTRY * (c % 256)
}

#[tactic(auto, unfolding(crate::specs::Directory::entry_in))]
fn load_entry(b: &[u8]) -> Entry
    requires { length b.now ≡ 16 }
    ensures { result ≡ entry_in b.now }
{
    Entry {
        holder: u16::read(b, 0),
        other: u16::read(b, 2),
        kept: Summary {
            wake: u32::read(b, 4),
            rows: u16::read(b, 8),
            used: u16::read(b, 10),
        },
    }
}

#[tactic(auto, using(crate::proofs::Places::entry_saved))]
fn save_entry(b: &mut [u8], e: Entry)
    requires { length b.old ≡ 16 }
    ensures { entry_in b.new ≡ e }
{
    e.holder.write(b, 0);
    e.other.write(b, 2);
    e.kept.wake.write(b, 4);
    e.kept.rows.write(b, 8);
    e.kept.used.write(b, 10);
}

#[tactic(auto, unfolding(crate::specs::Directory::entry_of))]
pub(crate) fn read_entry(deals: &[u8], c: usize) -> Entry
    requires { 16384 * c + 16384 ≤ length deals.now }
    ensures { result ≡ entry_of deals.now c }
{
    let o = entry_place(c);
    load_entry(&deals[o..o + ENTRY])
}

pub(crate) fn write_entry(deals: &mut [u8], c: usize, e: Entry)
    requires { 16384 * c + 16384 ≤ length deals.old }
    ensures { EntryPut deals.old c e deals.new }
{
    let o = entry_place(c);
    save_entry(&mut deals[o..o + ENTRY], e);
}
