// The three numbers that a start and a payment begin with: two of two bytes and one of one.
ghost use Rattle.std.specs.Prelude.{◌≡◌, ◌+◌, ◌≤◌, length};
ghost use Rattle.octets.specs.Octets.{put};
ghost use Rattle.mornings.specs.Written.{head_octets};

use octets::Word;

pub(crate) fn write_head(out: &mut [u8], at: usize, a: u16, b: u16, c: u8)
    requires { at + 5 ≤ length out.old }
    ensures { out.new ≡ put out.old at (head_octets a b c) }
{
    a.write(out, at);
    b.write(out, at + 2);
    out[at + 4] = c;
}
