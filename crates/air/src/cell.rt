ghost use Rattle.std.specs.Prelude.{◌≡◌, true, take};
ghost use Rattle.std.specs.Option.{ForSome};
ghost use Rattle.stage.specs.Bits.{binary};
ghost use Rattle.calendar.specs.Courses.{going_of};

use crate::parked::Parked;
use calendar::course::Course;
use std::marker::PhantomData;

// An end on air as a cell: it sends blocks through its chain on points of one kind.
// The table's first bytes are the block of the pending grant.
#[derive(Drop)]
pub struct Cell<S, P> {
    end: Parked,
    chain: S,
    block: [u8; 2536],
    pending: Option<Course>,
    kind: PhantomData<P>,
    ghost bits: { ForSome pending (λ c. binary (take (going_of c).grant.length block) ≡ true) },
}

mod moves;
mod offers;
mod pending;
mod subframes;
