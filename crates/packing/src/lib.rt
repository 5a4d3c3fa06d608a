// Bits and bytes: a byte holds eight bits, the highest first.
#![tactic(auto)]

ghost use Rattle.std.specs.Prelude.{◌≡◌, length};
ghost use Rattle.packing.specs.Packed.{bit_at, unpacked};

use std::fmt;

// Writes the bits of some bytes, as many as there is room for, and zeros past them.
pub fn unpack(bytes: &[u8], bits: &mut [u8])
    ensures { bits.new ≡ unpacked bytes.now (length bits.old) }
{
    for (k, b) in bits.iter_mut().enumerate() {
        *b = bit(bytes, k);
    }
}

// Bit k of some bytes, 0 past their end.
fn bit(bytes: &[u8], k: usize) -> u8
    ensures { result ≡ bit_at bytes.now k }
{
    bytes
        .get(k / 8)
        .map_or(0, |byte| (*byte >> (7 - k % 8)) & 1)
}

// Bits as hexadecimal digits, four to a digit.
#[derive(Clone, Copy)]
pub struct Hex<'a> {
    pub bits: &'a [u8],
}

impl fmt::Display for Hex<'_> {
    fn fmt<W: fmt::Write>(&self, f: &mut fmt::Formatter<W>) -> fmt::Result {
        for digit in self.bits.chunks(4) {
            let value = digit
                .iter()
                .fold(0u8, |value, bit| (value << 1 | (*bit & 1)) & 15);
            write!(f, "{value:X}")?;
        }
        Ok(())
    }
}
