ghost use Rattle.std.specs.Prelude.{◌≡◌};
ghost use Rattle.point.specs.Coordinates.{float_side, float_bit};
ghost use Rattle.point.specs.Built.{float_kind};
ghost use Rattle.std.proofs.Common.{rules};

use crate::Point;

// A point of two floats.
#[derive(Clone, Copy, PartialEq, Debug)]
pub struct FloatPoint {
    pub i: f32,
    pub q: f32,
}

impl Point for FloatPoint {
    ghost kind = { float_kind };

    ghost lawful = { Prim.search rules };

    #[tactic(auto, using(crate::proofs::Floats::nought))]
    fn blank() -> FloatPoint {
        FloatPoint { i: 0.0, q: 0.0 }
    }

    fn of(first: bool, second: bool) -> FloatPoint {
        FloatPoint {
            i: side(first),
            q: side(second),
        }
    }

    fn pair(self) -> Option<(bool, bool)> {
        Some((bit(self.i)?, bit(self.q)?))
    }
}

// The coordinate of a bit: 0 is positive. 0.70703125 is 1448 / 2048.
#[tactic(auto, using(crate::proofs::Floats::plus, crate::proofs::Floats::minus))]
fn side(bit: bool) -> f32
    ensures { result ≡ float_side bit }
{
    if bit { -0.70703125 } else { 0.70703125 }
}

// The bit of a coordinate, if it is one.
#[tactic(auto, using(crate::proofs::Floats::plus_bit, crate::proofs::Floats::minus_bit, crate::proofs::Floats::no_bit))]
fn bit(x: f32) -> Option<bool>
    ensures { result ≡ float_bit x }
{
    if x == 0.70703125 {
        Some(false)
    } else if x == -0.70703125 {
        Some(true)
    } else {
        None
    }
}
