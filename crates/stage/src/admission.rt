ghost use Rattle.std.specs.Prelude.{◌≡◌, not, [], ◌∷◌, take};
ghost use Rattle.std.specs.Result.{result_err};
ghost use Rattle.stage.specs.Bits.{binary};
ghost use Rattle.stage.specs.Refusals.{short, first_fault, opening_tests, forward_tests, back_tests};
ghost use Rattle.stage.specs.declared.fault.StageFault.TheVariants.{NotBits};

use crate::fault::StageFault;
use crate::setting::{MOST_BITS, Setting};

// How many bytes are tested at once.
const TOGETHER: usize = 64;

// Test 4: whether the work or side buffer is short.
pub fn is_short(work: &[u8], side: &[u8]) -> bool
    ensures { result ≡ short work.now side.now }
{
    work.len() < MOST_BITS || side.len() < MOST_BITS
}

// Tests 4 to 6, where m is the word length.
pub fn admit(s: Setting, m: usize, work: &[u8], side: &[u8]) -> Result<(), StageFault>
    ensures { result_err result ≡ first_fault (opening_tests s m work.now side.now) }
{
    if is_short(work, side) {
        return Err(StageFault::ShortBuffer);
    }
    if !s.in_range() {
        return Err(StageFault::BadSetting);
    }
    if m == 0 {
        return Err(StageFault::NoWord);
    }
    Ok(())
}

// Whether each byte is 0 or 1.
fn are_bits(bytes: &[u8]) -> bool
    ensures { result ≡ binary bytes.now }
{
    for part in bytes.chunks(TOGETHER) {
        if !are_low(part) {
            return false;
        }
    }
    true
}

// Whether no bit but the lowest is set in any of these bytes.
fn are_low(bytes: &[u8]) -> bool
    ensures { result ≡ binary bytes.now }
{
    bytes.iter().fold(0, |set, byte| set | *byte) < 2
}

// Test 8: each of the first n bytes, as far as there are so many, is 0 or 1.
#[tactic(auto, using(std::proofs::lemmas::List::take_min))]
pub fn check_bits(buffer: &[u8], n: usize) -> Result<(), StageFault>
    ensures { result_err result ≡ first_fault ((not (binary (take n buffer.now)), NotBits) ∷ []) }
{
    let end = n.min(buffer.len());
    if !are_bits(&buffer[..end]) {
        return Err(StageFault::NotBits);
    }
    Ok(())
}

// The tests of `forward`: 4 to 6, and 8 on the block.
pub fn admit_forward(
    n: usize,
    s: Setting,
    m: usize,
    work: &[u8],
    side: &[u8],
) -> Result<(), StageFault>
    ensures { result_err result ≡ first_fault (forward_tests n s m work.now side.now) }
{
    admit(s, m, work, side)?;
    check_bits(work, n)
}

// The tests of `back`: 4 to 7, and 8 on the word.
pub fn admit_back(
    s: Setting,
    m: usize,
    covers: bool,
    work: &[u8],
    side: &[u8],
) -> Result<(), StageFault>
    ensures { result_err result ≡ first_fault (back_tests s m covers work.now side.now) }
{
    admit(s, m, work, side)?;
    if !covers {
        return Err(StageFault::NotCovering);
    }
    check_bits(work, m)
}
