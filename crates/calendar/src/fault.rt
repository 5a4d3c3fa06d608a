ghost use Rattle.std.specs.Prelude.{◌≡◌, Some};
ghost use Rattle.calendar.specs.Grants.{fault_number};
ghost use Rattle.calendar.specs.Words.{fault_words};

use std::error::Error;
use std::fmt;

// Why a grant is refused.
#[derive(Clone, Copy, PartialEq, Eq, Debug)]
pub enum GrantFault {
    Rnti = 10,
    SubframeCount = 11,
    Repetitions = 12,
    BlockLength = 13,
}

impl GrantFault {
    pub fn number(self) -> u8
        ensures { result ≡ fault_number self }
    {
        self as u8
    }
}

impl fmt::Display for GrantFault {
    ghost output = { λ fault. Some (fault_words fault) };

    fn fmt<W: fmt::Write>(&self, f: &mut fmt::Formatter<W>) -> fmt::Result {
        f.write_str(match self {
            GrantFault::Rnti => "RNTI not from 1 to 65,535",
            GrantFault::SubframeCount => "subframe count not 1, 2, 3, 4, 5, 6, 8 or 10",
            GrantFault::Repetitions => "repetitions not one of the sixteen allowed",
            GrantFault::BlockLength => "block length not a multiple of 8 from 16 to 2,536",
        })
    }
}

impl Error for GrantFault {}
