ghost use Rattle.std.specs.Prelude.{◌≡◌, ◌≤◌};
ghost use Rattle.std.specs.Option.{option_map};
ghost use Rattle.calendar.specs.Identities.{number_of, known};

use crate::identity::Identity;

impl Identity {
    // The identity of a new end.
    pub fn zero() -> Identity
        ensures { number_of result ≡ 0 }
    {
        Identity { value: 0 }
    }

    // None above 503.
    pub fn new(value: u32) -> Option<Identity>
        ensures { option_map number_of result ≡ known value }
    {
        if value > 503 {
            return None;
        }
        Some(Identity {
            value: value as u16,
        })
    }

    pub fn value(self) -> u16
        ensures value { result ≡ number_of self }
        ensures most { result ≤ 503 }
    {
        self.value
    }
}
