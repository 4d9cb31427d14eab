// Payments in lent bytes, 13 each.
ghost use Rattle.std.specs.Prelude.{◌≡◌, ◌+◌, ◌*◌, ◌≤◌, length};
ghost use Rattle.octets.specs.Octets.{put};
ghost use Rattle.mornings.specs.Payments.{payment_bytes, payment_at, OneMore, ReadAgain, BytesTwoSided, BytesSay};

use crate::head::write_head;
use octets::Word;
use std::fmt;

// How many bytes a payment takes.
pub const PAYMENT: usize = 13;

// An amount, above 0, that one house pays another.
#[derive(Clone, Copy)]
pub struct Payment {
    pub from: u16,
    pub to: u16,
    pub currency: u8,
    pub amount: u64,
}

impl fmt::Display for Payment {
    fn fmt<W: fmt::Write>(&self, f: &mut fmt::Formatter<W>) -> fmt::Result {
        let Payment {
            from,
            to,
            currency,
            amount,
        } = *self;
        write!(f, "from {from} to {to} currency {currency} amount {amount}")
    }
}

// Writes payment number `k`; all other bytes stay as they are.
pub fn write_payment(out: &mut [u8], k: usize, p: Payment)
    requires { 13 * k + 13 ≤ length out.old }
    ensures { out.new ≡ put out.old (13 * k) (payment_bytes p) }
{
    let at = PAYMENT * k;
    write_head(out, at, p.from, p.to, p.currency);
    p.amount.write(out, at + 5);
}

// Payment number `k`.
pub fn read_payment(bytes: &[u8], k: usize) -> Payment
    requires { 13 * k + 13 ≤ length bytes.now }
    ensures { result ≡ payment_at bytes.now (13 * k) }
{
    let at = PAYMENT * k;
    Payment {
        from: u16::read(bytes, at),
        to: u16::read(bytes, at + 2),
        currency: bytes[at + 4],
        amount: u64::read(bytes, at + 5),
    }
}

// What is true of payments in bytes.
pub fn payments_stand()
    ensures more { OneMore }
    ensures again { ReadAgain }
    ensures says { BytesSay }
    ensures sides { BytesTwoSided }
{}
