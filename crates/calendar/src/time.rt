ghost use Rattle.std.specs.Prelude.{◌≡◌, not};
ghost use Rattle.calendar.specs.Times.{after, closed, next_open};

// How many frames there are before they run round again.
const FRAMES: u16 = 1024;

// A subframe: frames run from 0 to 1,023 and round again, and each has subframes 0 to 9.
#[derive(Clone, Copy, PartialEq, Eq, Debug)]
pub struct Time {
    pub frame: u16,
    pub subframe: u8,
}

impl Time {
    // The subframe after this one.
    pub fn step(self) -> Time
        ensures { result ≡ after self }
    {
        if self.subframe < 9 {
            return Time {
                subframe: self.subframe + 1,
                ..self
            };
        }
        Time {
            frame: (self.frame % FRAMES + 1) % FRAMES,
            subframe: 0,
        }
    }

    // Whether data may go out in it.
    pub fn is_open(self) -> bool
        ensures { result ≡ not (closed self) }
    {
        match self.subframe {
            0 | 5 => false,
            9 => self.frame % 2 == 1,
            _ => true,
        }
    }

    // The first open subframe at or after this one.
    pub fn next_open(self) -> Time
        ensures { result ≡ next_open self }
    {
        if self.is_open() {
            return self;
        }
        let after = self.step();
        if after.is_open() {
            return after;
        }
        after.step()
    }
}
