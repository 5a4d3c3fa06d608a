ghost use Rattle.std.specs.Prelude.{◌≡◌, ◌+◌, ◌*◌, ◌≤◌, false, length, take, OnErr, Some, Ok};
ghost use Rattle.std.specs.Option.{option_map};
ghost use Rattle.std.specs.Result.{result_err};
ghost use Rattle.stage.specs.Refusals.{short};
ghost use Rattle.calendar.specs.Courses.{going_of};
ghost use Rattle.calendar.specs.Grants.{part_bits, output};
ghost use Rattle.calendar.specs.Rounds.{owed};
ghost use Rattle.air.specs.declared.answers.Airing.TheVariants.{Data};
ghost use Rattle.air.specs.Cells.{airs, stepped, with_pending, round_word, part_due};
ghost use Rattle.air.specs.CellViews.{fitting, sending_of, cell_of};
ghost use Rattle.air.specs.Ends.{end_of};
ghost use Rattle.air.specs.Refusals.{subframe_refusal, settled, cleared, answered};

use crate::answers::Airing;
use crate::asking::round_setting;
use crate::buffers::{clear_both, copy_front};
use crate::cell::Cell;
use crate::checks::{check_buffers, check_grid};
use crate::fault::EndFault;
use calendar::course::Course;
use calendar::grant::PART_BITS;
use grid::subframe::{write_closed, write_data, write_idle};
use point::Point;
use stage::fault::StageFault;
use stage::stages::Stage;

impl<S: Stage, P: Point> Cell<S, P> {
    // Writes the grid of the subframe that the clock stands at, and steps the clock. Tests 4 and 17.
    #[tactic(auto, unfolding(crate::specs::Refusals::subframe_refusal))]
    pub fn subframe(
        &mut self,
        grid: &mut [P],
        work: &mut [u8],
        side: &mut [u8],
    ) -> Result<Airing, EndFault>
        ensures refusal { result_err result ≡ subframe_refusal work.old side.old (length grid.old) }
        ensures answer { result ≡ answered (result_err result) (airs P.Point.kind (cell_of S.Stage.meaning self.old)).answer }
        ensures grid { grid.new ≡ settled (result_err result) grid.old (airs P.Point.kind (cell_of S.Stage.meaning self.old)).grid }
        ensures cell { cell_of S.Stage.meaning self.new ≡ settled (result_err result) (cell_of S.Stage.meaning self.old) (stepped P.Point.kind (cell_of S.Stage.meaning self.old)) }
        ensures work { work.new ≡ cleared (result_err result) work.old }
        ensures side { side.new ≡ cleared (result_err result) side.old }
        ensures untouched { OnErr result (self.new ≡ self.old) }
    {
        check_buffers(work, side)?;
        check_grid(grid.len())?;
        let answer = self.air(grid, work, side)?;
        clear_both(work, side);
        self.end.step();
        Ok(answer)
    }

    // Writes the grid, and moves the pending grant on where its data went out.
    fn air(
        &mut self,
        grid: &mut [P],
        work: &mut [u8],
        side: &mut [u8],
    ) -> Result<Airing, StageFault>
        requires roomy { short work.old side.old ≡ false }
        requires whole { length grid.old ≡ 168 }
        ensures answer { result ≡ Ok (airs P.Point.kind (cell_of S.Stage.meaning self.old)).answer }
        ensures grid { grid.new ≡ (airs P.Point.kind (cell_of S.Stage.meaning self.old)).grid }
        ensures cell { cell_of S.Stage.meaning self.new ≡ with_pending (cell_of S.Stage.meaning self.old) (airs P.Point.kind (cell_of S.Stage.meaning self.old)).pending }
    {
        let identity = self.end.known();
        let time = self.end.time();
        if !time.is_open() {
            write_closed(grid);
            return Ok(Airing::Closed);
        }
        let Some(course) = self.current() else {
            write_idle(grid, identity, time.subframe);
            return Ok(Airing::Idle);
        };
        self.encode(course, work, side)?;
        let from = part_start(course);
        write_data(grid, identity, time.subframe, &work[from..from + PART_BITS]);
        self.pending = course.advanced();
        Ok(data(course))
    }

    // Puts the word of the round under way at the start of the work buffer.
    fn encode(&self, course: Course, work: &mut [u8], side: &mut [u8]) -> Result<usize, StageFault>
        requires pending { Some (going_of course) ≡ fitting (S.Stage.meaning self.now.chain) (option_map going_of self.now.pending) }
        requires roomy { short work.old side.old ≡ false }
        ensures answer { result ≡ Ok (output (going_of course).grant) }
        ensures word { take (output (going_of course).grant) work.new ≡ round_word (end_of self.now.end).identity (S.Stage.meaning self.now.chain) (sending_of self.now.block (going_of course)) }
    {
        let n = course.length();
        copy_front(work, &self.block, n);
        let setting = round_setting(course, self.end.known());
        self.chain.forward(n, setting, work, side)
    }
}

// What is said of the course's next open subframe.
fn data(course: Course) -> Airing
    ensures { result ≡ Data (part_due (going_of course)) (owed (going_of course).grant (going_of course).gone) }
{
    Airing::Data {
        part: course.part(),
        owed: course.owed(),
    }
}

// Where in the word the part begins that goes out in the course's next open subframe.
fn part_start(course: Course) -> usize
    ensures value { result ≡ part_bits * part_due (going_of course) }
    ensures within { result + part_bits ≤ output (going_of course).grant }
    ensures most { result ≤ part_bits * 9 }
{
    PART_BITS * course.part() as usize
}
