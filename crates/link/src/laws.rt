ghost use Rattle.link.specs.Differences.{DifferencesShow};

use point::Point;

// What two cells air under one grant differs, part by part, as the chain's image of their blocks' difference: for every lawful chain, identity and
// time, and whatever calls follow.
#[tactic(auto, using(crate::proofs::Differing::differences_show))]
pub fn differences_show<P: Point>()
    ensures { DifferencesShow P.Point.kind }
{}
