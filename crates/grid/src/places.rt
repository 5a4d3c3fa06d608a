ghost use Rattle.std.specs.Prelude.{◌≡◌, ℕ, ◌-◌, ◌%◌, ◌<◌, ◌≤◌, IfSome};
ghost use Rattle.grid.specs.Purposes.{among};
ghost use Rattle.grid.specs.Walk.{next_place};

use crate::purpose::Purpose;
use crate::shift::Shift;

// The places of one purpose on a grid, rising. Every walk over a grid goes by them.
#[derive(Drop)]
pub(crate) struct Places {
    shift: Shift,
    what: Purpose,
    from: usize,
    end: usize,
}

// The next place of one purpose, from `from` on and below `end`.
pub fn next_place(shift: Shift, what: Purpose, from: usize, end: usize) -> Option<usize>
    ensures place { (identity : ℕ) → shift.value ≡ identity % 6 → result ≡ next_place (among what identity) from (end - from) }
    ensures within { IfSome result (λ place. (from ≤ place) × (place < end)) }
{
    for place in from..end {
        if shift.purpose(place) == what {
            return Some(place);
        }
    }
    None
}

mod walk;
