ghost use Rattle.std.specs.Prelude.{◌≡◌, ◌<◌, true, ◌&&◌, nat_lt};
ghost use Rattle.stage.specs.Refusals.{ranged};
ghost use Rattle.calendar.specs.Courses.{going_of};
ghost use Rattle.calendar.specs.Grants.{output};
ghost use Rattle.calendar.specs.Identities.{number_of};
ghost use Rattle.calendar.specs.Rounds.{seed_at};
ghost use Rattle.air.specs.Fits.{word_size, mark};

use calendar::course::Course;
use calendar::identity::Identity;
use stage::setting::Setting;
use stage::stages::Stage;

// A setting to ask a chain by.
pub(crate) fn asking(course: Course) -> Setting
    ensures value { result ≡ record { output = output (going_of course).grant; seed = 0 } }
    ensures range { ranged result ≡ true }
{
    Setting {
        output: course.output(),
        seed: 0,
    }
}

// The setting of the round under way.
pub(crate) fn round_setting(course: Course, identity: Identity) -> Setting
    ensures output { result.output ≡ output (going_of course).grant }
    ensures seed { result.seed ≡ seed_at (number_of identity) (going_of course).grant (going_of course).start (going_of course).gone }
    ensures range { ranged result ≡ true }
{
    Setting {
        output: course.output(),
        seed: course.seed(identity),
    }
}

// The chain's word length for a grant, 0 where it has none.
pub(crate) fn word_length<S: Stage>(chain: &S, course: Course) -> usize
    ensures { result ≡ word_size (S.Stage.meaning chain.now) (going_of course).grant }
{
    chain.length(course.length(), asking(course))
}

// Whether the chain has a word for a grant, and covers it.
pub(crate) fn covers<S: Stage>(chain: &S, course: Course) -> bool
    ensures value { result ≡ (nat_lt 0 (word_size (S.Stage.meaning chain.now) (going_of course).grant) && mark (S.Stage.meaning chain.now) (going_of course).grant) }
    ensures asked { 0 < output (going_of course).grant }
{
    chain.covers(course.length(), asking(course))
}
