ghost use Rattle.std.specs.Prelude.{Some};
ghost use Rattle.air.specs.Words.{airing_words, outcome_words};

use std::fmt;

// What a cell says of the subframe that it has written.
#[derive(Clone, Copy, PartialEq, Eq, Debug)]
pub enum Airing {
    Closed,
    Idle,
    // The part that went out, and how many of the grant's open subframes are still owed after this one.
    Data { part: u32, owed: u32 },
}

// What a terminal makes of the subframe that it has heard.
#[derive(Clone, Copy, PartialEq, Eq, Debug)]
pub enum Outcome {
    Closed,
    Idle,
    // The first copy of a part was read.
    Part(u32),
    // The last part was read, and the block stands in the block buffer.
    Block,
    // The last part was read, and no block has the word.
    Spoiled,
    // Another copy, unread.
    Repeat,
}

impl fmt::Display for Airing {
    ghost output = { λ airing. Some (airing_words airing) };

    fn fmt<W: fmt::Write>(&self, f: &mut fmt::Formatter<W>) -> fmt::Result {
        match self {
            Airing::Closed => f.write_str("closed"),
            Airing::Idle => f.write_str("idle"),
            Airing::Data { part, owed } => write!(f, "data part {part}, owed {owed}"),
        }
    }
}

impl fmt::Display for Outcome {
    ghost output = { λ outcome. Some (outcome_words outcome) };

    fn fmt<W: fmt::Write>(&self, f: &mut fmt::Formatter<W>) -> fmt::Result {
        match self {
            Outcome::Closed => f.write_str("closed"),
            Outcome::Idle => f.write_str("idle"),
            Outcome::Part(part) => write!(f, "part {part}"),
            Outcome::Block => f.write_str("block"),
            Outcome::Spoiled => f.write_str("spoiled"),
            Outcome::Repeat => f.write_str("repeat"),
        }
    }
}
