ghost use Rattle.std.specs.Prelude.{◌≡◌, List};
ghost use Rattle.std.specs.Iterator.{AlwaysYields};
ghost use Rattle.calendar.specs.Identities.{number_of};
ghost use Rattle.grid.specs.Laws.{KeepsThings};
ghost use Rattle.grid.specs.Purposes.{among};
ghost use Rattle.grid.specs.Walk.{laid, taken, overwritten};

use crate::places::Places;
use crate::purpose::Purpose;
use calendar::identity::Identity;

// Puts the things, in their order, on the elements of one purpose in rising place, as far as they go. Every other element stays.
pub fn put<T: Copy>(grid: &mut [T], identity: Identity, what: Purpose, things: &[T])
    ensures after { grid.new ≡ laid (among what (number_of identity)) 0 grid.old things.now }
    ensures law { KeepsThings T }
{
    let mut places = Places::of(identity, what, grid.len());
    for thing in things {
        let Some(place) = places.next() else {
            return;
        };
        grid[place] = *thing;
    }
}

// Puts what comes, in its order, on the elements of one purpose in rising place, as far as both go.
pub(crate) fn lay<T: Copy, I: Iterator<Item = T>>(
    grid: &mut [T],
    identity: Identity,
    what: Purpose,
    things: I,
)
    requires { I.can_next things }
    ensures { (ts : List T) → AlwaysYields I.next_gives (λ t. t) things ts → grid.new ≡ laid (among what (number_of identity)) 0 grid.old ts }
{
    for (thing, place) in things.zip(Places::of(identity, what, grid.len())) {
        grid[place] = thing;
    }
}

// Copies what stands on the elements of one purpose, in rising place, over the front of `out`, as far as it goes.
pub fn fetch<T: Copy>(grid: &[T], identity: Identity, what: Purpose, out: &mut [T])
    ensures { out.new ≡ overwritten out.old (taken (among what (number_of identity)) 0 grid.now) }
{
    let mut chosen = Places::of(identity, what, grid.len());
    for i in 0..out.len() {
        let Some(place) = chosen.next() else {
            return;
        };
        out[i] = grid[place];
    }
}
