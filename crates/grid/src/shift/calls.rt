ghost use Rattle.std.specs.Prelude.{◌≡◌, ℕ, ◌%◌};
ghost use Rattle.calendar.specs.Identities.{number_of};
ghost use Rattle.grid.specs.Purposes.{purpose_of};

use crate::purpose::Purpose;
use crate::shift::Shift;
use calendar::identity::Identity;

impl Shift {
    pub fn of(identity: Identity) -> Shift
        ensures { result.value ≡ number_of identity % 6 }
    {
        Shift {
            value: (identity.value() % 6) as u8,
        }
    }

    // What the element at a place is for, at every identity of that remainder.
    pub fn purpose(self, place: usize) -> Purpose
        ensures { (identity : ℕ) → self.value ≡ identity % 6 → result ≡ purpose_of identity place }
    {
        let start = match place / 12 {
            5 | 12 => self.value,
            6 | 13 => (self.value + 3) % 6,
            _ => return Purpose::Data,
        };
        let k = (place % 12) as u8;
        if k == start || k == start + 6 {
            Purpose::Reference
        } else {
            Purpose::Data
        }
    }
}
