ghost use Rattle.std.specs.Prelude.{◌≡◌, ◌≤◌, true, not, ◌&&◌, List, ℕ, [], ◌∷◌, length, is_some, IfOk, Some, ◌==◌};
ghost use Rattle.std.specs.Option.{option_map};
ghost use Rattle.std.specs.Result.{result_err};
ghost use Rattle.stage.specs.Refusals.{first_fault};
ghost use Rattle.stage.specs.declared.fault.StageFault.TheVariants.{NoWord, NotCovering};
ghost use Rattle.grid.specs.Grids.{aired_bits};
ghost use Rattle.calendar.specs.Courses.{going_of};
ghost use Rattle.calendar.specs.Identities.{number_of};
ghost use Rattle.air.specs.declared.fault.EndFault.TheVariants.{ShortBlock, NoPair};
ghost use Rattle.air.specs.Fits.{word_size, mark, covered};
ghost use Rattle.air.specs.Terminals.{short_block, awaited_length};
ghost use Rattle.air.specs.TerminalViews.{awaiting_of, covered_by, terminal_of, is_due};

use crate::asking::{covers, word_length};
use crate::fault::EndFault;
use crate::terminal::Terminal;
use crate::terminal::slot::Slot;
use calendar::course::Course;
use calendar::identity::Identity;
use grid::subframe::read_data;
use point::Point;
use stage::fault::StageFault;
use stage::stages::Stage;

// The bits of the grid where they are due. Test 19.
pub(crate) fn listen<P: Point>(
    grid: &[P],
    identity: Identity,
    slot: Slot,
) -> Result<[u8; 320], EndFault>
    requires { length grid.now ≡ 168 }
    ensures refusal { result_err result ≡ first_fault ((is_due slot && not (is_some (aired_bits P.Point.kind (number_of identity) grid.now)), NoPair) ∷ []) }
    ensures bits { IfOk result (λ bits. is_due slot ≡ true → Some bits ≡ aired_bits P.Point.kind (number_of identity) grid.now) }
{
    match slot {
        Slot::FirstCopy => read_data(grid, identity).ok_or(EndFault::NoPair),
        _ => Ok([0; 320]),
    }
}

// The chain's own tests 6 and 7.
pub(crate) fn check_chain<S: Stage>(chain: &S, course: Course) -> Result<(), StageFault>
    ensures { result_err result ≡ first_fault ((word_size (S.Stage.meaning chain.now) (going_of course).grant == 0, NoWord) ∷ (not (mark (S.Stage.meaning chain.now) (going_of course).grant), NotCovering) ∷ []) }
{
    if word_length(chain, course) == 0 {
        return Err(StageFault::NoWord);
    }
    if !covers(chain, course) {
        return Err(StageFault::NotCovering);
    }
    Ok(())
}

// Whether the chain covers a grant with a word as long as it asks.
fn is_covered<S: Stage>(chain: &S, course: Course) -> bool
    ensures { result ≡ covered (S.Stage.meaning chain.now) (going_of course).grant }
{
    word_length(chain, course) == course.output() && covers(chain, course)
}

// The block length of what is awaited, 0 where nothing is.
fn block_length(awaited: Option<Course>) -> usize
    ensures value { (table : List ℕ) → result ≡ awaited_length (option_map (awaiting_of table) (option_map going_of awaited)) }
    ensures most { result ≤ 2536 }
{
    awaited.map_or(0, |course| course.length())
}

// Test 18, by the length of the block buffer.
pub(crate) fn check_block(awaited: Option<Course>, block: &[u8]) -> Result<(), EndFault>
    ensures { (table : List ℕ) → result_err result ≡ first_fault ((short_block (option_map (awaiting_of table) (option_map going_of awaited)) block.now, ShortBlock) ∷ []) }
{
    if block.len() < block_length(awaited) {
        return Err(EndFault::ShortBlock);
    }
    Ok(())
}

impl<S: Stage, P: Point> Terminal<S, P> {
    // The awaited grant.
    pub(crate) fn current(&self) -> Option<Course>
        ensures { option_map going_of result ≡ covered_by (S.Stage.meaning self.now.chain) (option_map going_of self.now.awaited) }
    {
        match self.awaited {
            Some(course) if is_covered(&self.chain, course) => Some(course),
            _ => None,
        }
    }

    // The block length of the awaited grant, 0 where there is none.
    pub fn awaited_length(&self) -> usize
        ensures value { result ≡ awaited_length (terminal_of S.Stage.meaning self.now).awaited }
        ensures most { result ≤ 2536 }
    {
        block_length(self.current())
    }
}
