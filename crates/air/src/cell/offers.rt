ghost use Rattle.std.specs.Prelude.{◌≡◌, ◌≤◌, true, length, take, is_some, IfOk, OnErr, Some};
ghost use Rattle.std.specs.Result.{result_err};
ghost use Rattle.stage.specs.Bits.{binary};
ghost use Rattle.calendar.specs.Courses.{going_of, begun};
ghost use Rattle.air.specs.Cells.{offered};
ghost use Rattle.air.specs.CellViews.{cell_of};
ghost use Rattle.air.specs.Refusals.{offer_refusal, settled, cleared};

use crate::asking::{asking, word_length};
use crate::buffers::{clear_both, copy_front};
use crate::cell::Cell;
use crate::checks::{check_buffers, check_free, check_word};
use crate::fault::EndFault;
use calendar::course::Course;
use calendar::grant::Grant;
use point::Point;
use stage::admission::admit_forward;
use stage::stages::Stage;

impl<S: Stage, P: Point> Cell<S, P> {
    // Takes a grant, and its block from the first bytes of the work buffer. Tests 4 and 10 to 16.
    #[tactic(auto, unfolding(crate::specs::Refusals::offer_refusal))]
    pub fn offer(&mut self, grant: Grant, work: &mut [u8], side: &mut [u8]) -> Result<(), EndFault>
        ensures refusal { result_err result ≡ offer_refusal (cell_of S.Stage.meaning self.old).chain (is_some (cell_of S.Stage.meaning self.old).pending) grant work.old side.old }
        ensures cell { cell_of S.Stage.meaning self.new ≡ settled (result_err result) (cell_of S.Stage.meaning self.old) (offered (cell_of S.Stage.meaning self.old) grant work.old) }
        ensures work { work.new ≡ cleared (result_err result) work.old }
        ensures side { side.new ≡ cleared (result_err result) side.old }
        ensures untouched { OnErr result (self.new ≡ self.old) }
    {
        let course = self.admit(grant, work, side)?;
        self.note(course, work);
        clear_both(work, side);
        Ok(())
    }

    // The tests of `offer`: the course that the grant then begins.
    #[tactic(auto, unfolding(crate::specs::Refusals::offer_refusal))]
    fn admit(&self, grant: Grant, work: &[u8], side: &[u8]) -> Result<Course, EndFault>
        ensures refusal { result_err result ≡ offer_refusal (cell_of S.Stage.meaning self.now).chain (is_some (cell_of S.Stage.meaning self.now).pending) grant work.now side.now }
        ensures accepted { IfOk result (λ c. going_of c ≡ begun grant (cell_of S.Stage.meaning self.now).time) }
    {
        check_buffers(work, side)?;
        let course = Course::begin(grant, self.end.time())?;
        check_free(self.current().is_some())?;
        let size = word_length(&self.chain, course);
        check_word(size, course.output())?;
        admit_forward(course.length(), asking(course), size, work, side)?;
        Ok(course)
    }

    // Keeps a course, and its block from the first bytes of the work buffer.
    fn note(&mut self, course: Course, work: &[u8])
        requires bits { binary (take (going_of course).grant.length work.now) ≡ true }
        requires roomy { 2536 ≤ length work.now }
        ensures end { self.new.end ≡ self.old.end }
        ensures chain { self.new.chain ≡ self.old.chain }
        ensures pending { self.new.pending ≡ Some course }
        ensures block { take (going_of course).grant.length self.new.block ≡ take (going_of course).grant.length work.now }
    {
        copy_front(&mut self.block, work, course.length());
        self.pending = Some(course);
    }
}
