// The bits of a row of bytes.
ghost use Rattle.std.specs.Prelude.{◌≡◌, ◌/◌, ◌<◌, ◌≤◌, length};
ghost use Rattle.judging.specs.Judged.{Wiped};
ghost use Rattle.sheets.specs.Bits.{with_bit, without_bit};

// Sets the first n bytes to 0.
#[tactic(auto, using(crate::proofs::Clearing::wiped_fill))]
pub(crate) fn clear(bytes: &mut [u8], n: usize)
    requires { n ≤ length bytes.old }
    ensures { Wiped n bytes.old bytes.new }
{
    bytes[..n].fill(0);
}

// Puts bit i in.
pub(crate) fn put_bit(bytes: &mut [u8], i: usize)
    requires { i / 8 < length bytes.old }
    ensures { bytes.new ≡ with_bit bytes.old i }
{
    bytes[i / 8] |= 1u8 << (i % 8);
}

// Takes bit i out.
pub(crate) fn take_bit(bytes: &mut [u8], i: usize)
    requires { i / 8 < length bytes.old }
    ensures { bytes.new ≡ without_bit bytes.old i }
{
    bytes[i / 8] &= 255 - (1u8 << (i % 8));
}
