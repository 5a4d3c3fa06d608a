ghost use Rattle.std.specs.Prelude.{◌≡◌};
ghost use Rattle.std.specs.Iterator.{YieldsFirst, item_count};
ghost use Rattle.calendar.specs.Identities.{number_of};
ghost use Rattle.grid.specs.Purposes.{among};
ghost use Rattle.grid.specs.Walk.{places};
ghost use Rattle.grid.specs.Places.{places_left};

use crate::places::{Places, next_place};
use crate::purpose::Purpose;
use crate::shift::Shift;
use calendar::identity::Identity;

impl Places {
    #[tactic(auto, using(crate::proofs::Elements::among_remainder))]
    pub(crate) fn of(identity: Identity, what: Purpose, end: usize) -> Places
        ensures { places_left result ≡ places (among what (number_of identity)) 0 end }
    {
        Places {
            shift: Shift::of(identity),
            what,
            from: 0,
            end,
        }
    }
}

impl Iterator for Places {
    type Item = usize;

    ghost next_gives = { YieldsFirst places_left };

    ghost remaining = { item_count places_left };

    fn next(&mut self) -> Option<usize> {
        let place = next_place(self.shift, self.what, self.from, self.end)?;
        self.from = place + 1;
        Some(place)
    }
}
