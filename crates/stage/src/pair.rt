ghost use Rattle.std.specs.Prelude.{◌≡◌};
ghost use Rattle.stage.specs.Meaning.{paired};
ghost use Rattle.stage.specs.Rule.{PairRule};
ghost use Rattle.stage.specs.Paired.{paired_lawful};

use crate::admission::admit;
use crate::fault::StageFault;
use crate::setting::Setting;
use crate::stages::Stage;

// First one stage, then another, under one setting. A pair is a stage, so pairs nest.
#[derive(Clone, Copy, Drop)]
pub struct Pair<A, B> {
    pub first: A,
    pub second: B,
}

impl<A: Stage, B: Stage> Pair<A, B> {
    // A pair of lawful stages is a lawful stage again, by the rule for pairs.
    pub fn new(first: A, second: B) -> Pair<A, B>
        ensures parts { result ≡ record { first = first; second = second } }
        ensures ruled { PairRule (A.Stage.meaning result.first) (B.Stage.meaning result.second) (paired (A.Stage.meaning result.first) (B.Stage.meaning result.second)) }
    {
        Pair { first, second }
    }
}

impl<A: Stage, B: Stage> Stage for Pair<A, B> {
    ghost meaning = { λ p. paired (A.Stage.meaning p.first) (B.Stage.meaning p.second) };

    ghost lawful = { λ p. paired_lawful (A.Stage.lawful p.first) (B.Stage.lawful p.second) };

    fn length(&self, n: usize, s: Setting) -> usize {
        let m = self.first.length(n, s);
        self.second.length(m, s)
    }

    fn covers(&self, n: usize, s: Setting) -> bool {
        let m = self.first.length(n, s);
        self.first.covers(n, s) && self.second.covers(m, s)
    }

    fn forward(
        &self,
        n: usize,
        s: Setting,
        work: &mut [u8],
        side: &mut [u8],
    ) -> Result<usize, StageFault> {
        admit(s, self.length(n, s), work, side)?;
        let m = self.first.forward(n, s, work, side)?;
        self.second.forward(m, s, work, side)
    }

    fn back(
        &self,
        n: usize,
        s: Setting,
        work: &mut [u8],
        side: &mut [u8],
    ) -> Result<usize, StageFault> {
        admit(s, self.length(n, s), work, side)?;
        if !self.covers(n, s) {
            return Err(StageFault::NotCovering);
        }
        let m = self.first.length(n, s);
        self.second.back(m, s, work, side)?;
        match self.first.back(n, s, work, side) {
            Ok(length) => Ok(length),
            Err(fault) => {
                // The second stage's block is no word of the first: the word is put back.
                self.second.forward(m, s, work, side)?;
                Err(fault)
            }
        }
    }
}
