ghost use Rattle.std.specs.Prelude.{◌≡◌, ◌+◌, ◌≤◌, true, false, ◌++◌, length, take, IfOk, Some};
ghost use Rattle.std.specs.Option.{option_map};
ghost use Rattle.std.specs.Result.{result_ok};
ghost use Rattle.stage.specs.Refusals.{short};
ghost use Rattle.calendar.specs.Grants.{output};
ghost use Rattle.calendar.specs.Courses.{going_of};
ghost use Rattle.calendar.specs.Identities.{number_of};
ghost use Rattle.calendar.specs.Rounds.{seed_at};
ghost use Rattle.calendar.specs.Times.{closed};
ghost use Rattle.air.specs.declared.terminal.slot.Slot.TheVariants.{FirstCopy};
ghost use Rattle.air.specs.Fits.{covered};
ghost use Rattle.air.specs.Terminals.{block_of, short_block};
ghost use Rattle.air.specs.TerminalViews.{covered_by, terminal_of, slot_of, takes_in};

use crate::answers::Outcome;
use crate::asking::round_setting;
use crate::buffers::copy_front;
use crate::terminal::Terminal;
use crate::terminal::slot::Slot;
use calendar::course::Course;
use calendar::grant::PART_BITS;
use point::Point;
use stage::fault::StageFault;
use stage::stages::Stage;

// Puts the bits of a part into the table.
fn put_part(table: &mut [u8; 3200], from: usize, bits: &[u8; 320])
    requires { from + 320 ≤ 3200 }
    ensures { take (from + 320) table.new ≡ take from table.old ++ bits.now }
{
    table[from..from + PART_BITS].copy_from_slice(bits);
}

impl<S: Stage, P: Point> Terminal<S, P> {
    // Takes in the subframe that the clock is at, with its bits where they are due.
    pub(crate) fn take_in(
        &mut self,
        awaited: Option<Course>,
        slot: Slot,
        bits: &[u8; 320],
        work: &mut [u8],
        side: &mut [u8],
        block: &mut [u8],
    ) -> Outcome
        requires awaited { option_map going_of awaited ≡ covered_by (S.Stage.meaning self.old.chain) (option_map going_of self.old.awaited) }
        requires slot { slot ≡ slot_of (closed self.old.end.time) (option_map going_of awaited) }
        requires roomy { short work.old side.old ≡ false }
        requires room { short_block (terminal_of S.Stage.meaning self.old).awaited block.old ≡ false }
        ensures { (result, block.new, terminal_of S.Stage.meaning self.new) ≡ takes_in (terminal_of S.Stage.meaning self.old) bits.now block.old }
    {
        match (awaited, slot) {
            (_, Slot::Closed) => Outcome::Closed,
            (None, _) | (_, Slot::Idle) => Outcome::Idle,
            (Some(course), Slot::FirstCopy) => self.read_part(course, bits, work, side, block),
            (Some(course), Slot::Repeat) => {
                self.awaited = course.advanced();
                Outcome::Repeat
            }
        }
    }

    // Reads the first copy of a part.
    fn read_part(
        &mut self,
        course: Course,
        bits: &[u8; 320],
        work: &mut [u8],
        side: &mut [u8],
        block: &mut [u8],
    ) -> Outcome
        requires awaited { covered_by (S.Stage.meaning self.old.chain) (option_map going_of self.old.awaited) ≡ Some (going_of course) }
        requires slot { slot_of (closed self.old.end.time) (Some (going_of course)) ≡ FirstCopy }
        requires roomy { short work.old side.old ≡ false }
        requires room { (going_of course).grant.length ≤ length block.old }
        ensures { (result, block.new, terminal_of S.Stage.meaning self.new) ≡ takes_in (terminal_of S.Stage.meaning self.old) bits.now block.old }
    {
        let part = course.part();
        put_part(&mut self.word, PART_BITS * part as usize, bits);
        if !course.is_last_part() {
            self.awaited = course.advanced();
            return Outcome::Part(part);
        }
        match self.decode(course, work, side) {
            Ok(n) => {
                self.awaited = course.advanced();
                copy_front(block, work, n);
                Outcome::Block
            }
            Err(_) => {
                self.awaited = None;
                Outcome::Spoiled
            }
        }
    }

    // Puts the block of the whole word at the start of the work buffer, if there is one.
    fn decode(&self, course: Course, work: &mut [u8], side: &mut [u8]) -> Result<usize, StageFault>
        requires covered { covered (S.Stage.meaning self.now.chain) (going_of course).grant ≡ true }
        requires roomy { short work.old side.old ≡ false }
        ensures block { option_map (λ n. take n work.new) (result_ok result) ≡ block_of (S.Stage.meaning self.now.chain) (going_of course).grant.length (output (going_of course).grant) (seed_at (number_of self.now.end.identity) (going_of course).grant (going_of course).start (going_of course).gone) (take (output (going_of course).grant) self.now.word) }
        ensures length { IfOk result (λ n. n ≡ (going_of course).grant.length) }
    {
        let setting = round_setting(course, self.end.known());
        copy_front(work, &self.word, course.output());
        self.chain.back(course.length(), setting, work, side)
    }
}
