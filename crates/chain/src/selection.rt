ghost use Rattle.std.specs.Prelude.{◌≡◌, ◌<◌, ◌≤◌, ◌↔◌, length, IsTrue};
ghost use Rattle.stage.specs.Gather.{gathered};
ghost use Rattle.chain.specs.Selecting.{selecting, ring};
ghost use Rattle.chain.specs.Selects.{selecting_lawful};

use stage::admission::{admit_back, admit_forward};
use stage::buffers::clear_from;
use stage::fault::StageFault;
use stage::guard::Cleared;
use stage::setting::{MOST_BITS, Setting};
use stage::stages::Stage;

// Takes the bits of a block in a ring, as many as the setting asks.
#[derive(Clone, Copy)]
pub struct Selection {}

impl Stage for Selection {
    ghost meaning = { λ _. selecting };

    ghost lawful = { λ _. selecting_lawful };

    fn length(&self, n: usize, s: Setting) -> usize {
        if (1..=MOST_BITS).contains(&n) && s.in_range() {
            s.output
        } else {
            0
        }
    }

    fn covers(&self, n: usize, s: Setting) -> bool {
        self.length(n, s) > 0 && n <= s.output
    }

    fn forward(
        &self,
        n: usize,
        s: Setting,
        work: &mut [u8],
        side: &mut [u8],
    ) -> Result<usize, StageFault> {
        let m = self.length(n, s);
        admit_forward(n, s, m, work, side)?;
        let _guard = Cleared { bytes: side };
        repeat(&mut work[..m], n);
        clear_from(work, m);
        Ok(m)
    }

    fn back(
        &self,
        n: usize,
        s: Setting,
        work: &mut [u8],
        side: &mut [u8],
    ) -> Result<usize, StageFault> {
        let m = self.length(n, s);
        admit_back(s, m, self.covers(n, s), work, side)?;
        let _guard = Cleared { bytes: side };
        if !repeats(&work[..m], n) {
            clear_from(work, m);
            return Err(StageFault::NoBlock);
        }
        clear_from(work, n);
        Ok(n)
    }
}

// Goes on with the first n bits, again and again, to the end.
fn repeat(bits: &mut [u8], n: usize)
    requires { 0 < n }
    ensures { bits.new ≡ gathered (ring n (length bits.old)) bits.old }
{
    for k in n..bits.len() {
        bits[k] = bits[k - n];
    }
}

// Whether the first n bits go on, again and again, to the end.
fn repeats(bits: &[u8], n: usize) -> bool
    requires some { 0 < n }
    requires within { n ≤ length bits.now }
    ensures { IsTrue result ↔ (bits.now ≡ gathered (ring n (length bits.now)) bits.now) }
{
    bits[n..] == bits[..bits.len() - n]
}
