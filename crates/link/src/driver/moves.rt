ghost use Rattle.std.specs.Prelude.{◌≡◌};
ghost use Rattle.stage.specs.Bits.{zeros};
ghost use Rattle.air.specs.Ends.{end_of};
ghost use Rattle.link.specs.Account.{opened};
ghost use Rattle.link.specs.Following.{on_air};
ghost use Rattle.link.specs.Home.{BlocksComeHome};
ghost use Rattle.link.specs.Links.{link_of};

use crate::driver::Link;
use air::parked::Parked;
use calendar::time::Time;
use point::Point;
use stage::stages::Stage;

impl<S: Stage + Copy, P: Point> Link<S, P> {
    // Puts a cell and a terminal on air alike. Whatever list of calls follows, the terminal hands up exactly the blocks on the account.
    pub fn on_air(parked: Parked, chain: S) -> Link<S, P>
        ensures alike { link_of S.Stage.meaning result ≡ on_air (end_of parked) (S.Stage.meaning chain) }
        ensures block { result.block ≡ zeros 2536 }
        ensures home { BlocksComeHome P.Point.kind (link_of S.Stage.meaning result) (opened (end_of parked) (S.Stage.meaning chain)) }
    {
        let twin = parked.twin();
        Link {
            cell: parked.cell(chain),
            terminal: twin.terminal(chain),
            block: [0; 2536],
        }
    }
}

impl<S: Stage, P: Point> Link<S, P> {
    // The time that the cell's clock stands at.
    pub fn time(&self) -> Time
        ensures { result ≡ (link_of S.Stage.meaning self.now).cell.time }
    {
        self.cell.time()
    }
}

impl<S: Stage + Drop, P: Point> Link<S, P> {
    // Takes both ends off air, and gives back the one that the cell was.
    pub fn stop(self) -> Parked
        ensures { end_of result ≡ record { identity = (link_of S.Stage.meaning self).cell.identity; time = (link_of S.Stage.meaning self).cell.time } }
    {
        let Link { cell, .. } = self;
        cell.stop()
    }
}
