// Bit selection, the scrambler, and the built-in chain of all five stages.
#![tactic(auto)]

pub mod built_in;
pub mod scrambler;
pub mod selection;
