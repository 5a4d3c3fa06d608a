// Some bits, cut short or with one of them turned.
ghost use Rattle.std.specs.Prelude.{◌≡◌, take, bit_xor, slice_index, slice_set};

// The first n of some bits, or all where there are not so many.
pub fn front(bits: &[u8], n: usize) -> &[u8]
    ensures { result.now ≡ take n bits.now }
{
    bits.get(..n).unwrap_or(bits)
}

// Turns bit k, where there is one.
#[tactic(auto, using(std::proofs::lemmas::List::set_past))]
pub fn turn(bits: &mut [u8], k: usize)
    ensures { bits.new ≡ slice_set bits.old k (bit_xor (slice_index bits.old k) 1) }
{
    if k < bits.len() {
        bits[k] ^= 1;
    }
}
