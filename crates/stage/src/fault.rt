ghost use Rattle.std.specs.Prelude.{◌≡◌, Some};
ghost use Rattle.stage.specs.Refusals.{fault_number};
ghost use Rattle.stage.specs.Words.{fault_words};

use std::error::Error;
use std::fmt;

// Why a call of a stage is refused.
#[derive(Clone, Copy, PartialEq, Eq, Debug)]
pub enum StageFault {
    ShortBuffer = 4,
    BadSetting = 5,
    NoWord = 6,
    NotCovering = 7,
    NotBits = 8,
    NoBlock = 9,
}

impl StageFault {
    pub fn number(self) -> u8
        ensures { result ≡ fault_number self }
    {
        self as u8
    }
}

impl fmt::Display for StageFault {
    ghost output = { λ fault. Some (fault_words fault) };

    fn fmt<W: fmt::Write>(&self, f: &mut fmt::Formatter<W>) -> fmt::Result {
        f.write_str(match self {
            StageFault::ShortBuffer => "work or side buffer short",
            StageFault::BadSetting => "setting out of range",
            StageFault::NoWord => "no word at this length",
            StageFault::NotCovering => {
                "the chain does not cover, so words do not tell blocks apart"
            }
            StageFault::NotBits => "a byte is neither 0 nor 1",
            StageFault::NoBlock => "no block has this word",
        })
    }
}

impl Error for StageFault {}
