// Stages of a channel coder: maps from blocks of bits to words and back, and pairs of them.
#![tactic(auto)]

pub mod admission;
pub mod buffers;
pub mod fault;
pub mod guard;
pub mod pair;
pub mod setting;
pub mod stages;
