#![tactic(auto)]

ghost use Rattle.std.specs.Prelude.{◌≡◌, ◌^◌, ◌<◌, true, length};
ghost use Rattle.stage.specs.Bits.{binary};
ghost use Rattle.check_bits.specs.Checking.{checking, check_bits_of, taken_in, to_bits, CheckBitsStand};
ghost use Rattle.check_bits.specs.Checks.{checking_lawful};

use stage::admission::{admit_back, admit_forward};
use stage::buffers::clear_from;
use stage::fault::StageFault;
use stage::guard::Cleared;
use stage::setting::{MOST_BITS, Setting};
use stage::stages::Stage;

// How many check bits there are.
const CHECK: usize = 24;

// Puts 24 check bits behind a block.
#[derive(Clone, Copy)]
pub struct CheckBits {}

impl CheckBits {
    // The check bits are the remainder of block * D^24 by the generator, and there is no other remainder.
    pub fn new() -> CheckBits
        ensures { CheckBitsStand }
    {
        CheckBits {}
    }
}

impl Stage for CheckBits {
    ghost meaning = { λ _. checking };

    ghost lawful = { λ _. checking_lawful };

    fn length(&self, n: usize, s: Setting) -> usize {
        if (1..=MOST_BITS - CHECK).contains(&n) && s.in_range() {
            n + CHECK
        } else {
            0
        }
    }

    fn covers(&self, n: usize, s: Setting) -> bool {
        self.length(n, s) > 0
    }

    fn forward(
        &self,
        n: usize,
        s: Setting,
        work: &mut [u8],
        side: &mut [u8],
    ) -> Result<usize, StageFault> {
        let m = self.length(n, s);
        admit_forward(n, s, m, work, side)?;
        let _guard = Cleared { bytes: side };
        let check = check_of(&work[..n]);
        work[n..m].copy_from_slice(&check);
        clear_from(work, m);
        Ok(m)
    }

    fn back(
        &self,
        n: usize,
        s: Setting,
        work: &mut [u8],
        side: &mut [u8],
    ) -> Result<usize, StageFault> {
        let m = self.length(n, s);
        admit_back(s, m, self.covers(n, s), work, side)?;
        let _guard = Cleared { bytes: side };
        let check = check_of(&work[..n]);
        if work[n..m] != check[..] {
            clear_from(work, m);
            return Err(StageFault::NoBlock);
        }
        clear_from(work, n);
        Ok(n)
    }
}

// The check bits of a block, by a shift register that starts at 0.
fn check_of(block: &[u8]) -> [u8; CHECK]
    requires { binary block.now ≡ true }
    ensures { result ≡ check_bits_of block.now }
{
    let register = block.iter().fold(0, |state, bit| shift_in(state, *bit));
    bits_of(register)
}

// One bit into the register, whose lowest 24 bits count.
fn shift_in(register: u32, bit: u8) -> u32
    ensures { bit < 2 → to_bits 24 result ≡ taken_in (to_bits 24 register) bit }
{
    let top = ((register >> 23) ^ bit as u32) & 1;
    let shifted = register << 1;
    if top == 1 {
        shifted ^ 0x86_4cfb
    } else {
        shifted
    }
}

// The lowest 24 bits of a number, the highest first.
fn bits_of(number: u32) -> [u8; CHECK]
    ensures { result ≡ to_bits 24 number }
{
    let mut bits = [0; CHECK];
    for (i, bit) in bits.iter_mut().enumerate() {
        *bit = ((number >> (23 - i)) & 1) as u8;
    }
    bits
}
