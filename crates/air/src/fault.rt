ghost use Rattle.std.specs.Prelude.{◌≡◌, Some};
ghost use Rattle.air.specs.Faults.{park_number, end_number};
ghost use Rattle.air.specs.Words.{park_words, end_words};
ghost use Rattle.air.specs.declared.fault.EndFault.TheVariants.{Grant, Chain};

use calendar::fault::GrantFault;
use stage::fault::StageFault;
use std::error::Error;
use std::fmt;

// Why a parked end refuses to be set.
#[derive(Clone, Copy, PartialEq, Eq, Debug)]
pub enum ParkFault {
    Identity = 1,
    Frame = 2,
    Subframe = 3,
}

impl ParkFault {
    pub fn number(self) -> u8
        ensures { result ≡ park_number self }
    {
        self as u8
    }
}

impl fmt::Display for ParkFault {
    ghost output = { λ fault. Some (park_words fault) };

    fn fmt<W: fmt::Write>(&self, f: &mut fmt::Formatter<W>) -> fmt::Result {
        f.write_str(match self {
            ParkFault::Identity => "identity above 503",
            ParkFault::Frame => "frame above 1,023",
            ParkFault::Subframe => "subframe above 9",
        })
    }
}

impl Error for ParkFault {}

// Why a cell or a terminal refuses a call.
#[derive(Clone, Copy, PartialEq, Eq, Debug)]
pub enum EndFault {
    ShortBuffer,
    Grant(GrantFault),
    Pending,
    WordLength,
    Chain(StageFault),
    GridSize,
    ShortBlock,
    NoPair,
    NoGrant,
}

impl EndFault {
    pub fn number(self) -> u8
        ensures { result ≡ end_number self }
    {
        match self {
            EndFault::ShortBuffer => 4,
            EndFault::Grant(fault) => fault.number(),
            EndFault::Pending => 14,
            EndFault::WordLength => 15,
            EndFault::Chain(_) => 16,
            EndFault::GridSize => 17,
            EndFault::ShortBlock => 18,
            EndFault::NoPair => 19,
            EndFault::NoGrant => 20,
        }
    }
}

impl fmt::Display for EndFault {
    ghost output = { λ fault. Some (end_words fault) };

    fn fmt<W: fmt::Write>(&self, f: &mut fmt::Formatter<W>) -> fmt::Result {
        f.write_str(match self {
            EndFault::Grant(fault) => return write!(f, "{fault}"),
            EndFault::Chain(fault) => return write!(f, "chain refused: {fault}"),
            EndFault::ShortBuffer => "work or side buffer short",
            EndFault::Pending => "a grant is pending",
            EndFault::WordLength => "the chain has a word, but not one as long as the grant asks",
            EndFault::GridSize => "the grid has not 168 points",
            EndFault::ShortBlock => "block buffer shorter than the block of the pending grant",
            EndFault::NoPair => "a data point that is due to be read is no pair",
            EndFault::NoGrant => "there is no grant",
        })
    }
}

impl Error for EndFault {}

impl From<GrantFault> for EndFault {
    ghost from_gives = { λ f r. r ≡ Grant f };

    fn from(fault: GrantFault) -> EndFault {
        EndFault::Grant(fault)
    }
}

impl From<StageFault> for EndFault {
    ghost from_gives = { λ f r. r ≡ Chain f };

    fn from(fault: StageFault) -> EndFault {
        EndFault::Chain(fault)
    }
}
