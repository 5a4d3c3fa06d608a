ghost use Rattle.std.specs.Prelude.{◌≡◌};
ghost use Rattle.std.specs.Option.{option_map};
ghost use Rattle.calendar.specs.Courses.{going_of};
ghost use Rattle.air.specs.TerminalViews.{slot_of};

use calendar::course::Course;

// What a subframe is to a terminal.
#[derive(Clone, Copy)]
pub(crate) enum Slot {
    Closed,
    Idle,
    // The first copy of a part, in the first round.
    FirstCopy,
    Repeat,
}

// What a subframe is to a terminal, by whether it is closed and by the grant that is awaited.
pub(crate) fn slot_for(shut: bool, awaited: Option<Course>) -> Slot
    ensures { result ≡ slot_of shut (option_map going_of awaited) }
{
    match awaited {
        _ if shut => Slot::Closed,
        None => Slot::Idle,
        Some(course) if course.is_first_copy() => Slot::FirstCopy,
        Some(_) => Slot::Repeat,
    }
}
