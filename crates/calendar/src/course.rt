ghost use Rattle.std.specs.Prelude.{◌≡◌, ◌<◌, true};
ghost use Rattle.calendar.specs.Grants.{rnti_allowed, count_allowed, repetitions_allowed, length_allowed};
ghost use Rattle.calendar.specs.Rounds.{whole, round_first};
ghost use Rattle.calendar.specs.Times.{open_at};

use crate::grant::Grant;
use crate::time::Time;

// A grant under way: when it started, and how many of its open subframes are gone.
// Kept beside them: its next open subframe, and the first one of the round under way.
#[derive(Clone, Copy)]
pub struct Course {
    grant: Grant,
    start: Time,
    gone: u32,
    next: Time,
    first: Time,
    ghost called: { rnti_allowed grant ≡ true },
    ghost counted: { count_allowed grant ≡ true },
    ghost repeated: { repetitions_allowed grant ≡ true },
    ghost sized: { length_allowed grant ≡ true },
    ghost more: { gone < whole grant },
    ghost upcoming: { next ≡ open_at start gone },
    ghost opening: { first ≡ open_at start (round_first grant gone) },
}

mod calls;
