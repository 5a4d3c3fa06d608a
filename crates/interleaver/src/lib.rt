#![tactic(auto)]

ghost use Rattle.std.specs.Prelude.{◌≡◌, ◌+◌, ◌*◌, ◌%◌, ◌<◌, ◌≤◌, length, take, slice_index, slice_set};
ghost use Rattle.std.specs.Iterator.{YieldsFirst, item_count};
ghost use Rattle.stage.specs.Gather.{gathered};
ghost use Rattle.interleaver.specs.Interleaving.{order, rows, unused, left, row_of, first_in, triple, three_streams, interleaving};
ghost use Rattle.interleaver.specs.Interleaves.{interleaving_lawful};

use stage::admission::{admit_back, admit_forward};
use stage::buffers::clear_from;
use stage::fault::StageFault;
use stage::guard::Cleared;
use stage::setting::Setting;
use stage::stages::Stage;

// The columns in the order in which they are read.
const ORDER: [u8; 32] = [
    1, 17, 9, 25, 5, 21, 13, 29, 3, 19, 11, 27, 7, 23, 15, 31, 0, 16, 8, 24, 4, 20, 12, 28, 2, 18,
    10, 26, 6, 22, 14, 30,
];

// Writes each of three streams into a matrix row by row, and reads it column by column.
#[derive(Clone, Copy)]
pub struct Interleaver {}

// The matrix of one stream: rows of 32 columns, whose unused cells come first.
#[derive(Clone, Copy)]
struct Matrix {
    bits: usize,
    height: usize,
    ghost few: { bits ≤ 2560 },
    ghost fewest: { height ≡ rows bits },
}

// The bits of its stream, in the order in which they are read: `bit` comes next, or the next column where it is past the last bit.
#[derive(Drop)]
struct Places {
    matrix: Matrix,
    turn: usize,
    bit: usize,
    ghost turns: { turn < 32 },
    ghost column: { (bit + unused matrix.bits) % 32 ≡ slice_index order turn },
    ghost inside: { row_of matrix.bits bit ≤ rows matrix.bits },
}

impl Stage for Interleaver {
    ghost meaning = { λ _. interleaving };

    ghost lawful = { λ _. interleaving_lawful };

    fn length(&self, n: usize, s: Setting) -> usize {
        if !is_three_streams(n) || !s.in_range() {
            return 0;
        }
        n
    }

    fn covers(&self, n: usize, s: Setting) -> bool {
        self.length(n, s) > 0
    }

    fn forward(
        &self,
        n: usize,
        s: Setting,
        work: &mut [u8],
        side: &mut [u8],
    ) -> Result<usize, StageFault> {
        let m = self.length(n, s);
        admit_forward(n, s, m, work, side)?;
        let guard = Cleared { bytes: side };
        Matrix::holding(n / 3).interleave(work, guard.bytes);
        clear_from(work, m);
        Ok(m)
    }

    fn back(
        &self,
        n: usize,
        s: Setting,
        work: &mut [u8],
        side: &mut [u8],
    ) -> Result<usize, StageFault> {
        let m = self.length(n, s);
        admit_back(s, m, self.covers(n, s), work, side)?;
        let guard = Cleared { bytes: side };
        Matrix::holding(n / 3).deinterleave(work, guard.bytes);
        clear_from(work, n);
        Ok(n)
    }
}

// Whether a block is three streams of 7 to 2,560 bits.
fn is_three_streams(n: usize) -> bool
    ensures { result ≡ three_streams n }
{
    n % 3 == 0 && (7..=2560).contains(&(n / 3))
}

impl Matrix {
    // The fewest rows that hold d bits.
    fn holding(d: usize) -> Matrix
        requires { d ≤ 2560 }
        ensures { result.bits ≡ d }
    {
        Matrix {
            bits: d,
            height: (d + 31) / 32,
        }
    }

    // Interleaves the three streams at the start of the work buffer, by way of the side buffer.
    fn interleave(self, work: &mut [u8], side: &mut [u8])
        requires work_holds { 3 * self.bits ≤ length work.old }
        requires side_holds { 3 * self.bits ≤ length side.old }
        ensures { take (3 * self.bits) work.new ≡ gathered (triple self.bits) (take (3 * self.bits) work.old) }
    {
        let n = 3 * self.bits;
        side[..n].copy_from_slice(&work[..n]);
        for (k, p) in self.places().enumerate() {
            self.copy_bit(side, p, work, k);
        }
    }

    // Puts back the three streams whose interleaved bits are at the start of the work buffer.
    fn deinterleave(self, work: &mut [u8], side: &mut [u8])
        requires work_holds { 3 * self.bits ≤ length work.old }
        requires side_holds { 3 * self.bits ≤ length side.old }
        ensures { gathered (triple self.bits) (take (3 * self.bits) work.new) ≡ take (3 * self.bits) work.old }
    {
        let n = 3 * self.bits;
        side[..n].copy_from_slice(&work[..n]);
        for (k, p) in self.places().enumerate() {
            self.copy_bit(side, k, work, p);
        }
    }

    // Copies bit p of each of three streams to bit k, since their matrices are alike.
    fn copy_bit(self, from: &[u8], p: usize, to: &mut [u8], k: usize)
        requires source { 2 * self.bits + p < length from.now }
        requires target { 2 * self.bits + k < length to.old }
        ensures { to.new ≡ slice_set (slice_set (slice_set to.old k (slice_index from.now p)) (self.bits + k) (slice_index from.now (self.bits + p))) (2 * self.bits + k) (slice_index from.now (2 * self.bits + p)) }
    {
        let d = self.bits;
        to[k] = from[p];
        to[d + k] = from[d + p];
        to[2 * d + k] = from[2 * d + p];
    }

    // Its bits, of which none is read yet.
    fn places(self) -> Places
        ensures { left result.matrix.bits result.turn (row_of result.matrix.bits result.bit) ≡ left self.bits 0 0 }
    {
        Places {
            matrix: self,
            turn: 0,
            bit: self.first_bit(0),
        }
    }

    // The first bit of the column that is read at a turn.
    fn first_bit(self, turn: usize) -> usize
        requires turns { turn < 32 }
        ensures { result ≡ first_in self.bits (slice_index order turn) }
    {
        let unused = 32 * self.height - self.bits;
        (32 + usize::from(ORDER[turn]) - unused) % 32
    }
}

impl Iterator for Places {
    type Item = usize;

    ghost next_gives = { YieldsFirst (λ s. left s.matrix.bits s.turn (row_of s.matrix.bits s.bit)) };

    ghost remaining = { item_count (λ s. left s.matrix.bits s.turn (row_of s.matrix.bits s.bit)) };

    fn next(&mut self) -> Option<usize> {
        while self.bit >= self.matrix.bits {
            let turn = self.turn + 1;
            if turn == 32 {
                return None;
            }
            self.turn = turn;
            self.bit = self.matrix.first_bit(turn);
        }
        let bit = self.bit;
        self.bit += 32;
        Some(bit)
    }
}
