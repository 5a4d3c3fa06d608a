ghost use Rattle.std.specs.Prelude.{◌≡◌, None};
ghost use Rattle.air.specs.CellViews.{cell_of};
ghost use Rattle.air.specs.Ends.{end_of};

use crate::cell::Cell;
use crate::parked::Parked;
use calendar::time::Time;
use point::Point;
use stage::stages::Stage;
use std::marker::PhantomData;

impl Parked {
    // Puts the end on air as a cell, with nothing pending.
    pub fn cell<S: Stage, P: Point>(self, chain: S) -> Cell<S, P>
        ensures { cell_of S.Stage.meaning result ≡ record { identity = (end_of self).identity; time = (end_of self).time; chain = S.Stage.meaning chain; pending = None } }
    {
        Cell {
            end: self,
            chain,
            block: [0; 2536],
            pending: None,
            kind: PhantomData,
        }
    }
}

impl<S: Stage, P: Point> Cell<S, P> {
    // The time that the clock stands at.
    pub fn time(&self) -> Time
        ensures { result ≡ (cell_of S.Stage.meaning self.now).time }
    {
        self.end.time()
    }
}

impl<S: Stage + Drop, P: Point> Cell<S, P> {
    // Takes the cell off air, and drops any grant.
    pub fn stop(self) -> Parked
        ensures { end_of result ≡ record { identity = (cell_of S.Stage.meaning self).identity; time = (cell_of S.Stage.meaning self).time } }
    {
        let Cell { end, .. } = self;
        end
    }
}
