ghost use Rattle.std.specs.Prelude.{◌≤◌};

// A cell's identity, from 0 to 503.
#[derive(Clone, Copy, PartialEq, Eq, Debug)]
pub struct Identity {
    value: u16,
    ghost known: { value ≤ 503 },
}

mod calls;
