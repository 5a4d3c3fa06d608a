ghost use Rattle.std.specs.Prelude.{◌≡◌};
ghost use Rattle.std.specs.Result.{result_err};
ghost use Rattle.calendar.specs.Grants.{rnti_allowed, count_allowed, repetitions_allowed, length_allowed, grant_refusal, output};

use crate::fault::GrantFault;

// The bits of a word that go out in one subframe.
pub const PART_BITS: usize = 320;

// What a grant names: whom it calls, in how many subframes a word goes out, how often, and how long the block is.
#[derive(Clone, Copy, PartialEq, Eq, Debug)]
pub struct Grant {
    pub rnti: u32,
    pub subframes: u32,
    pub repetitions: u32,
    pub length: usize,
}

impl Grant {
    // Tests 10 to 13.
    pub fn check(self) -> Result<(), GrantFault>
        ensures { result_err result ≡ grant_refusal self }
    {
        if !self.rnti_allowed() {
            return Err(GrantFault::Rnti);
        }
        if !self.count_allowed() {
            return Err(GrantFault::SubframeCount);
        }
        if !self.repetitions_allowed() {
            return Err(GrantFault::Repetitions);
        }
        if !self.length_allowed() {
            return Err(GrantFault::BlockLength);
        }
        Ok(())
    }

    // The length of the word.
    pub fn output(self) -> usize
        ensures { result ≡ output self }
    {
        PART_BITS * self.subframes as usize
    }

    fn rnti_allowed(self) -> bool
        ensures { result ≡ rnti_allowed self }
    {
        (1..=65535).contains(&self.rnti)
    }

    fn count_allowed(self) -> bool
        ensures { result ≡ count_allowed self }
    {
        matches!(self.subframes, 1 | 2 | 3 | 4 | 5 | 6 | 8 | 10)
    }

    fn repetitions_allowed(self) -> bool
        ensures { result ≡ repetitions_allowed self }
    {
        matches!(
            self.repetitions,
            1 | 2 | 4 | 8 | 16 | 32 | 64 | 128 | 192 | 256 | 384 | 512 | 768 | 1024 | 1536 | 2048
        )
    }

    fn length_allowed(self) -> bool
        ensures { result ≡ length_allowed self }
    {
        (16..=2536).contains(&self.length) && self.length % 8 == 0
    }
}
