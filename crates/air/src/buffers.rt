ghost use Rattle.std.specs.Prelude.{◌≡◌, ◌≤◌, ◌++◌, length, take, drop};
ghost use Rattle.stage.specs.Bits.{zeros};

// Copies the first n bytes of one buffer to the start of another.
pub(crate) fn copy_front(to: &mut [u8], from: &[u8], n: usize)
    requires { (n ≤ length to.old) × (n ≤ length from.now) }
    ensures front { take n to.new ≡ take n from.now }
    ensures after { to.new ≡ take n from.now ++ drop n to.old }
    ensures long { n ≤ length from.now }
{
    to[0..n].copy_from_slice(&from[0..n]);
}

// Zeroes both buffers, as every accepted call does that takes them.
pub(crate) fn clear_both(work: &mut [u8], side: &mut [u8])
    ensures work { work.new ≡ zeros (length work.old) }
    ensures side { side.new ≡ zeros (length side.old) }
{
    work.fill(0);
    side.fill(0);
}
