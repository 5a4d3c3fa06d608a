// Kinds of point: what stands on one element of a grid.
#![tactic(auto)]

ghost use Rattle.std.specs.Prelude.{◌≡◌};
ghost use Rattle.point.specs.Kinds.{Kind, LawfulKind, Distinct};

pub mod fixed;
pub mod float;

// A blank, and a point for each pair of bits.
pub trait Point: Copy {
    // what the blank and the four points are, and which pair a point stands for
    ghost kind: { Kind Self };

    fn blank() -> Self
        ensures { result ≡ kind.blank };

    fn of(first: bool, second: bool) -> Self
        ensures { result ≡ kind.point first second };

    // None for what is not one of the four points.
    fn pair(self) -> Option<(bool, bool)>
        ensures { result ≡ kind.pair self };

    ghost lawful: { LawfulKind kind };
}

// The blank and the four points of every kind differ.
pub fn five_differ<P: Point>()
    ensures { Distinct P.Point.kind }
{}
