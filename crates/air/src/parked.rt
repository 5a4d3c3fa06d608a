ghost use Rattle.std.specs.Prelude.{◌≤◌};

use calendar::identity::Identity;
use calendar::time::Time;

// An end that is not on air: its identity, and the time that its clock stands at.
#[derive(Drop)]
pub struct Parked {
    identity: Identity,
    time: Time,
    ghost framed: { time.frame ≤ 1023 },
    ghost timed: { time.subframe ≤ 9 },
}

mod calls;
