ghost use Rattle.std.specs.Prelude.{◌≡◌, ◌≤◌, length, take};
ghost use Rattle.stage.specs.Bits.{xor, zeros, padded};
ghost use Rattle.gold.specs.Sequence.{sequence};
ghost use Rattle.chain.specs.Scrambling.{scrambling};
ghost use Rattle.chain.specs.Scrambles.{scrambling_lawful};

use gold::Gold;
use stage::admission::{admit_back, admit_forward};
use stage::buffers::clear_from;
use stage::fault::StageFault;
use stage::guard::Cleared;
use stage::setting::{MOST_BITS, Setting};
use stage::stages::Stage;

// Adds the pseudo-random sequence of the seed to a block.
#[derive(Clone, Copy)]
pub struct Scrambler {}

impl Stage for Scrambler {
    ghost meaning = { λ _. scrambling };

    ghost lawful = { λ _. scrambling_lawful };

    fn length(&self, n: usize, s: Setting) -> usize {
        if n <= MOST_BITS && s.in_range() { n } else { 0 }
    }

    fn covers(&self, n: usize, s: Setting) -> bool {
        self.length(n, s) > 0
    }

    fn forward(
        &self,
        n: usize,
        s: Setting,
        work: &mut [u8],
        side: &mut [u8],
    ) -> Result<usize, StageFault> {
        admit_forward(n, s, self.length(n, s), work, side)?;
        scramble(n, s.seed, work, side);
        Ok(n)
    }

    fn back(
        &self,
        n: usize,
        s: Setting,
        work: &mut [u8],
        side: &mut [u8],
    ) -> Result<usize, StageFault> {
        admit_back(s, self.length(n, s), self.covers(n, s), work, side)?;
        scramble(n, s.seed, work, side);
        Ok(n)
    }
}

// Adds the sequence to the first n bytes, and zeroes all else: past the tests, both ways do the same.
fn scramble(n: usize, seed: u32, work: &mut [u8], side: &mut [u8])
    requires { n ≤ length work.old }
    ensures work { work.new ≡ padded (xor (take n work.old) (sequence seed n)) (length work.old) }
    ensures side { side.new ≡ zeros (length side.old) }
{
    let _guard = Cleared { bytes: side };
    add_sequence(&mut work[..n], seed);
    clear_from(work, n);
}

// Adds c(0), c(1) and so on of a seed to the bits of a slice.
fn add_sequence(bits: &mut [u8], seed: u32)
    ensures { bits.new ≡ xor bits.old (sequence seed (length bits.old)) }
{
    let mut gold = Gold::new(seed);
    for k in 0..bits.len() {
        bits[k] ^= gold.next_bit();
    }
}
