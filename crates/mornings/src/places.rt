// Hands out the parts of a judged morning, one after the other.
ghost use Rattle.std.specs.Prelude.{◌≡◌, ◌+◌, ◌<◌, ◌≤◌, length, MatchOption};
ghost use Rattle.mornings.specs.Places.{deal_at, rate_at, choice_at};

use octets::Word;

// A deal, with the place at which its text begins and the one behind its last byte, at which the next deal stands.
#[derive(Clone, Copy, Default)]
pub struct DealAt {
    pub holder: u16,
    pub other: u16,
    pub day: u32,
    pub text_at: usize,
    pub text_end: usize,
}

// A choice, with the place at which its way begins and the one behind its last step, at which the next choice stands.
#[derive(Clone, Copy)]
pub struct ChoiceAt {
    pub deal: u32,
    pub way_at: usize,
    pub way_end: usize,
}

// The deal at a place.
pub fn deal_at(bytes: &[u8], at: usize) -> DealAt
    requires { at + 10 ≤ length bytes.now }
    ensures { result ≡ deal_at bytes.now at }
{
    DealAt {
        holder: u16::read(bytes, at),
        other: u16::read(bytes, at + 2),
        day: u32::read(bytes, at + 4),
        text_at: at + 10,
        text_end: at + 10 + u16::read(bytes, at + 8) as usize,
    }
}

// The deal at a place, if its text ends within the bytes.
pub fn whole_deal_at(bytes: &[u8], at: usize) -> Option<DealAt>
    ensures { MatchOption result (length bytes.now < (deal_at bytes.now at).text_end) (λ d. (d ≡ deal_at bytes.now at) × (d.text_end ≤ length bytes.now)) }
{
    if at > bytes.len().checked_sub(10)? {
        return None;
    }
    let deal = deal_at(bytes, at);
    (deal.text_end <= bytes.len()).then_some(deal)
}

// The rate at a place; the next one stands eight bytes further on.
pub fn rate_at(bytes: &[u8], at: usize) -> i64
    requires { at + 8 ≤ length bytes.now }
    ensures { result ≡ rate_at bytes.now at }
{
    i64::read(bytes, at)
}

// The choice at a place.
pub fn choice_at(bytes: &[u8], at: usize) -> ChoiceAt
    requires { at + 5 ≤ length bytes.now }
    ensures { result ≡ choice_at bytes.now at }
{
    ChoiceAt {
        deal: u32::read(bytes, at),
        way_at: at + 5,
        way_end: at + 5 + bytes[at + 4] as usize,
    }
}
