ghost use Rattle.std.specs.Prelude.{◌≡◌, is_some, OnErr, None};
ghost use Rattle.std.specs.Option.{option_map};
ghost use Rattle.std.specs.Result.{result_err};
ghost use Rattle.calendar.specs.Courses.{going_of};
ghost use Rattle.air.specs.Cells.{is_covered, with_pending};
ghost use Rattle.air.specs.CellViews.{fitting, cell_of};
ghost use Rattle.air.specs.Fits.{fits};
ghost use Rattle.air.specs.Refusals.{end_refusal, settled};

use crate::asking::{covers, word_length};
use crate::cell::Cell;
use crate::fault::EndFault;
use calendar::course::Course;
use point::Point;
use stage::stages::Stage;

impl<S: Stage, P: Point> Cell<S, P> {
    // Drops the pending grant. Test 20.
    #[tactic(auto, unfolding(crate::specs::Refusals::end_refusal))]
    pub fn withdraw(&mut self) -> Result<(), EndFault>
        ensures refusal { result_err result ≡ end_refusal (is_some (cell_of S.Stage.meaning self.old).pending) }
        ensures cell { cell_of S.Stage.meaning self.new ≡ settled (result_err result) (cell_of S.Stage.meaning self.old) (with_pending (cell_of S.Stage.meaning self.old) None) }
        ensures untouched { OnErr result (self.new ≡ self.old) }
    {
        self.current().ok_or(EndFault::NoGrant)?;
        self.pending = None;
        Ok(())
    }

    // Whether the chain covers the pending grant.
    pub fn is_covered(&self) -> bool
        ensures { result ≡ is_covered (cell_of S.Stage.meaning self.now).chain (cell_of S.Stage.meaning self.now).pending }
    {
        self.current()
            .is_some_and(|course| covers(&self.chain, course))
    }

    // The pending grant: a kept one counts where the chain has a word as long as it asks.
    pub(super) fn current(&self) -> Option<Course>
        ensures { option_map going_of result ≡ fitting (S.Stage.meaning self.now.chain) (option_map going_of self.now.pending) }
    {
        match self.pending {
            Some(course) if self.fits(course) => Some(course),
            _ => None,
        }
    }

    // Whether the chain has a word as long as the grant asks.
    fn fits(&self, course: Course) -> bool
        ensures { result ≡ fits (S.Stage.meaning self.now.chain) (going_of course).grant }
    {
        word_length(&self.chain, course) == course.output()
    }
}
