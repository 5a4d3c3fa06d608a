ghost use Rattle.std.specs.Prelude.{◌≡◌, length, take};
ghost use Rattle.stage.specs.Bits.{padded};

// Zeroes a buffer from n on.
pub fn clear_from(buffer: &mut [u8], n: usize)
    ensures { buffer.new ≡ padded (take n buffer.old) (length buffer.old) }
{
    let from = n.min(buffer.len());
    buffer[from..].fill(0);
}
