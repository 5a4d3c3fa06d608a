#![tactic(auto)]

ghost use Rattle.std.specs.Prelude.{◌≡◌, ◌*◌, ◌≤◌, ◌↔◌, [], ◌∷◌, length, take, IsTrue, OnOk, OnErr, IfErr, ◌≢◌, All};
ghost use Rattle.stage.specs.Bits.{xor, zeros, padded};
ghost use Rattle.stage.specs.declared.fault.StageFault.TheVariants.{NoBlock};
ghost use Rattle.tail_biting.specs.Coding.{coding, coded, uncoded, stream};
ghost use Rattle.tail_biting.specs.TailBites.{coding_lawful};

use stage::admission::{admit_back, admit_forward};
use stage::buffers::clear_from;
use stage::fault::StageFault;
use stage::guard::Cleared;
use stage::setting::Setting;
use stage::stages::Stage;

// The length of the shortest block that has a word.
const SHORTEST: usize = 7;

// The length of the longest one.
const LONGEST: usize = 2560;

// The taps of each stream.
const TAPS: [[usize; 5]; 3] = [[0, 2, 3, 5, 6], [0, 1, 2, 3, 6], [0, 1, 2, 4, 6]];

// The taps that undo stream 0.
const UNDO_0: [usize; 2] = [1, 3];

// The taps that undo stream 2.
const UNDO_2: [usize; 3] = [0, 2, 3];

// The tail-biting convolutional code of rate 1/3: three streams of a block, one after the other.
#[derive(Clone, Copy)]
pub struct TailBitingCode {}

impl Stage for TailBitingCode {
    ghost meaning = { λ _. coding };

    ghost lawful = { λ _. coding_lawful };

    fn length(&self, n: usize, s: Setting) -> usize {
        if !(SHORTEST..=LONGEST).contains(&n) || !s.in_range() {
            return 0;
        }
        3 * n
    }

    fn covers(&self, n: usize, s: Setting) -> bool {
        self.length(n, s) > 0
    }

    fn forward(
        &self,
        n: usize,
        s: Setting,
        work: &mut [u8],
        side: &mut [u8],
    ) -> Result<usize, StageFault> {
        let m = self.length(n, s);
        admit_forward(n, s, m, work, side)?;
        let guard = Cleared { bytes: side };
        encode(work, guard.bytes, n);
        Ok(m)
    }

    fn back(
        &self,
        n: usize,
        s: Setting,
        work: &mut [u8],
        side: &mut [u8],
    ) -> Result<usize, StageFault> {
        let m = self.length(n, s);
        admit_back(s, m, self.covers(n, s), work, side)?;
        let guard = Cleared { bytes: side };
        decode(work, guard.bytes, n)?;
        Ok(n)
    }
}

// Replaces the block in the first n bytes of `work` by its word, and zeroes the rest. `side` is room
// to work in.
fn encode(work: &mut [u8], side: &mut [u8], n: usize)
    requires least { 7 ≤ n }
    requires work_room { 3 * n ≤ length work.old }
    requires side_room { n ≤ length side.old }
    ensures { work.new ≡ padded (coded (take n work.old)) (length work.old) }
{
    let block = &mut side[..n];
    block.copy_from_slice(&work[..n]);
    work.fill(0);
    add_word(block, &mut work[..3 * n]);
}

// Replaces the word in the first 3n bytes of `work` by its block, and zeroes the rest. Where no block
// has the word, the word stays. `side` is room to work in.
fn decode(work: &mut [u8], side: &mut [u8], n: usize) -> Result<(), StageFault>
    requires least { 7 ≤ n }
    requires work_room { 3 * n ≤ length work.old }
    requires side_room { n ≤ length side.old }
    ensures found { OnOk result (coded (uncoded n (take (3 * n) work.old)) ≡ take (3 * n) work.old) }
    ensures block { OnOk result (work.new ≡ padded (uncoded n (take (3 * n) work.old)) (length work.old)) }
    ensures fault { IfErr result (λ f. f ≡ NoBlock) }
    ensures lacking { OnErr result (coded (uncoded n (take (3 * n) work.old)) ≢ take (3 * n) work.old) }
    ensures word { OnErr result (work.new ≡ padded (take (3 * n) work.old) (length work.old)) }
{
    let block = &mut side[..n];
    let word = &mut work[..3 * n];
    find_block(word, block);
    add_word(block, word);
    if !is_zero(word) {
        // The found block has another word: what was added is taken away.
        add_word(block, word);
        clear_from(work, 3 * n);
        return Err(StageFault::NoBlock);
    }
    work[..n].copy_from_slice(block);
    clear_from(work, n);
    Ok(())
}

// Adds the word of a block to `out`.
fn add_word(block: &[u8], out: &mut [u8])
    requires least { 7 ≤ length block.now }
    requires same { length out.old ≡ 3 * length block.now }
    ensures { out.new ≡ xor out.old (coded block.now) }
{
    let n = block.len();
    for (j, taps) in TAPS.iter().enumerate() {
        add_stream(block, taps, &mut out[j * n..(j + 1) * n]);
    }
}

// Writes to `block` the one block that can have this word.
fn find_block(word: &[u8], block: &mut [u8])
    requires least { 7 ≤ length block.old }
    requires same { length word.now ≡ 3 * length block.old }
    ensures { block.new ≡ uncoded (length block.old) word.now }
{
    let n = block.len();
    block.fill(0);
    add_stream(&word[..n], &UNDO_0, block);
    add_stream(&word[2 * n..], &UNDO_2, block);
}

// Adds the stream of a block at these taps to `out`.
fn add_stream(block: &[u8], taps: &[usize], out: &mut [u8])
    requires near { All (λ t. t ≤ length block.now) taps.now }
    requires same { length out.old ≡ length block.now }
    ensures { out.new ≡ xor out.old (stream taps.now block.now) }
{
    for t in taps {
        add_tap(block, *t, out);
    }
}

// Adds to each bit of `out` the block's bit t positions behind it, in a ring.
fn add_tap(block: &[u8], t: usize, out: &mut [u8])
    requires near { t ≤ length block.now }
    requires same { length out.old ≡ length block.now }
    ensures { out.new ≡ xor out.old (stream (t ∷ []) block.now) }
{
    let turn = block.len() - t;
    add_bits(&block[turn..], &mut out[..t]);
    add_bits(&block[..turn], &mut out[t..]);
}

// Adds bits to those of `out`, from its start.
fn add_bits(bits: &[u8], out: &mut [u8])
    requires { length bits.now ≤ length out.old }
    ensures { out.new ≡ xor out.old bits.now }
{
    for k in 0..bits.len() {
        out[k] ^= bits[k];
    }
}

// Whether all bits are 0.
fn is_zero(bits: &[u8]) -> bool
    ensures { IsTrue result ↔ (bits.now ≡ zeros (length bits.now)) }
{
    bits.iter().all(|bit| *bit == 0)
}
