ghost use Rattle.std.specs.Prelude.{◌<◌};

// The remainder of an identity by 6, which moves the reference elements. It is taken once for a walk over a grid.
#[derive(Clone, Copy)]
pub struct Shift {
    value: u8,
    ghost small: { value < 6 },
}

mod calls;
