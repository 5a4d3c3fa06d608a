ghost use Rattle.std.specs.Prelude.{◌≡◌};
ghost use Rattle.point.specs.Coordinates.{fixed_side, fixed_bit};
ghost use Rattle.point.specs.Built.{fixed_kind};
ghost use Rattle.std.proofs.Common.{rules};

use crate::Point;

// A point of two signed numbers with 11 fraction bits.
#[derive(Clone, Copy, PartialEq, Eq, Debug)]
pub struct FixedPoint {
    pub i: i16,
    pub q: i16,
}

impl Point for FixedPoint {
    ghost kind = { fixed_kind };

    ghost lawful = { Prim.search rules };

    fn blank() -> FixedPoint {
        FixedPoint { i: 0, q: 0 }
    }

    fn of(first: bool, second: bool) -> FixedPoint {
        FixedPoint {
            i: side(first),
            q: side(second),
        }
    }

    fn pair(self) -> Option<(bool, bool)> {
        Some((bit(self.i)?, bit(self.q)?))
    }
}

// The coordinate of a bit: 0 is positive.
fn side(bit: bool) -> i16
    ensures { result ≡ fixed_side bit }
{
    if bit { -1448 } else { 1448 }
}

// The bit of a coordinate, if it is one.
fn bit(x: i16) -> Option<bool>
    ensures { result ≡ fixed_bit x }
{
    match x {
        1448 => Some(false),
        -1448 => Some(true),
        _ => None,
    }
}
