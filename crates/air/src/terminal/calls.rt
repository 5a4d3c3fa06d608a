ghost use Rattle.std.specs.Prelude.{◌≡◌, is_some, OnErr, None};
ghost use Rattle.std.specs.Result.{result_err};
ghost use Rattle.calendar.specs.Times.{closed};
ghost use Rattle.air.specs.Ends.{end_of};
ghost use Rattle.air.specs.Refusals.{expect_refusal, end_refusal, settled, cleared, answered};
ghost use Rattle.air.specs.Terminals.{expecting, with_awaited, hear_refusal, hears, heard};
ghost use Rattle.air.specs.TerminalViews.{terminal_of, tuned, end_within};

use crate::answers::Outcome;
use crate::asking::word_length;
use crate::buffers::clear_both;
use crate::checks::{check_buffers, check_free, check_grid, check_word};
use crate::fault::EndFault;
use crate::parked::Parked;
use crate::terminal::Terminal;
use crate::terminal::admission::{check_block, check_chain, listen};
use crate::terminal::slot::slot_for;
use calendar::course::Course;
use calendar::grant::Grant;
use point::Point;
use stage::stages::Stage;
use std::marker::PhantomData;

impl Parked {
    // Puts the end on air as a terminal.
    pub fn terminal<S: Stage, P: Point>(self, chain: S) -> Terminal<S, P>
        ensures { terminal_of S.Stage.meaning result ≡ tuned (end_of self) (S.Stage.meaning chain) }
    {
        Terminal {
            end: self,
            chain,
            awaited: None,
            word: [0; 3200],
            kind: PhantomData,
        }
    }
}

impl<S: Stage, P: Point> Terminal<S, P> {
    // Awaits a grant from now on. Tests 10 to 16.
    #[tactic(auto, unfolding(crate::specs::Refusals::expect_refusal))]
    pub fn expect(&mut self, grant: Grant) -> Result<(), EndFault>
        ensures refusal { result_err result ≡ expect_refusal (terminal_of S.Stage.meaning self.old).chain (is_some (terminal_of S.Stage.meaning self.old).awaited) grant }
        ensures terminal { terminal_of S.Stage.meaning self.new ≡ settled (result_err result) (terminal_of S.Stage.meaning self.old) (expecting (terminal_of S.Stage.meaning self.old) grant) }
        ensures untouched { OnErr result (self.new ≡ self.old) }
    {
        let course = Course::begin(grant, self.end.time())?;
        check_free(self.current().is_some())?;
        check_word(word_length(&self.chain, course), course.output())?;
        check_chain(&self.chain, course)?;
        self.awaited = Some(course);
        Ok(())
    }

    // Hears the grid of the subframe that the clock is at, and steps the clock. Tests 4 and 17 to 19.
    #[tactic(auto, unfolding(crate::specs::Terminals::hear_refusal))]
    pub fn hear(
        &mut self,
        grid: &[P],
        work: &mut [u8],
        side: &mut [u8],
        block: &mut [u8],
    ) -> Result<Outcome, EndFault>
        ensures refusal { result_err result ≡ hear_refusal P.Point.kind (terminal_of S.Stage.meaning self.old).identity (closed (terminal_of S.Stage.meaning self.old).time) (terminal_of S.Stage.meaning self.old).awaited work.old side.old block.old grid.now }
        ensures answer { result ≡ answered (result_err result) (hears P.Point.kind (terminal_of S.Stage.meaning self.old) block.old grid.now).outcome }
        ensures terminal { terminal_of S.Stage.meaning self.new ≡ settled (result_err result) (terminal_of S.Stage.meaning self.old) (heard P.Point.kind (terminal_of S.Stage.meaning self.old) block.old grid.now) }
        ensures block { block.new ≡ settled (result_err result) block.old (hears P.Point.kind (terminal_of S.Stage.meaning self.old) block.old grid.now).buffer }
        ensures work { work.new ≡ cleared (result_err result) work.old }
        ensures side { side.new ≡ cleared (result_err result) side.old }
        ensures untouched { OnErr result (self.new ≡ self.old) }
    {
        check_buffers(work, side)?;
        check_grid(grid.len())?;
        let awaited = self.current();
        check_block(awaited, block)?;
        let slot = slot_for(!self.end.time().is_open(), awaited);
        let bits = listen(grid, self.end.known(), slot)?;
        let outcome = self.take_in(awaited, slot, &bits, work, side, block);
        clear_both(work, side);
        self.end.step();
        Ok(outcome)
    }

    // Awaits the grant no more. Test 20.
    #[tactic(auto, unfolding(crate::specs::Refusals::end_refusal))]
    pub fn forget(&mut self) -> Result<(), EndFault>
        ensures refusal { result_err result ≡ end_refusal (is_some (terminal_of S.Stage.meaning self.old).awaited) }
        ensures terminal { terminal_of S.Stage.meaning self.new ≡ settled (result_err result) (terminal_of S.Stage.meaning self.old) (with_awaited (terminal_of S.Stage.meaning self.old) None) }
        ensures untouched { OnErr result (self.new ≡ self.old) }
    {
        self.current().ok_or(EndFault::NoGrant)?;
        self.awaited = None;
        Ok(())
    }
}

impl<S: Stage + Drop, P: Point> Terminal<S, P> {
    // Takes the end off air, with its identity and time. An awaited grant is dropped.
    pub fn stop(self) -> Parked
        ensures { end_of result ≡ end_within (terminal_of S.Stage.meaning self) }
    {
        let Terminal { end, .. } = self;
        end
    }
}
