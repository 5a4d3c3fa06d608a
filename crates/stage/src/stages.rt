ghost use Rattle.std.specs.Prelude.{◌≡◌};
ghost use Rattle.stage.specs.Meaning.{Meaning, Lawful};
ghost use Rattle.stage.specs.Calls.{word_length, covering, Forward, Back};

use crate::fault::StageFault;
use crate::setting::Setting;

// A stage turns a block of n bits into a word under a setting, and back. What it means is a word length,
// a difference map, an offset and a mark, for each block length and setting. The work buffer begins with
// the block or word, one byte for each bit; the side buffer is room to work in.
pub trait Stage {
    ghost meaning: { Self → Meaning };

    // The word length at blocks of n bits, or 0 where there is none.
    fn length(&self, n: usize, s: Setting) -> usize
        ensures { result ≡ word_length (meaning self.now) n s };

    // Whether it is marked as covering: different blocks of n bits then have different words.
    fn covers(&self, n: usize, s: Setting) -> bool
        ensures { result ≡ covering (meaning self.now) n s };

    // Replaces the block in the first n bytes of the work buffer by its word, and answers the word length.
    fn forward(
        &self,
        n: usize,
        s: Setting,
        work: &mut [u8],
        side: &mut [u8],
    ) -> Result<usize, StageFault>
        ensures { Forward (meaning self.now) n s work.old side.old work.new side.new result };

    // Replaces the word at the start of the work buffer by the block of n bits whose word it is, and answers n.
    fn back(
        &self,
        n: usize,
        s: Setting,
        work: &mut [u8],
        side: &mut [u8],
    ) -> Result<usize, StageFault>
        ensures { Back (meaning self.now) n s work.old side.old work.new side.new result };

    ghost lawful: { (x : Self) → Lawful (meaning x) };
}
