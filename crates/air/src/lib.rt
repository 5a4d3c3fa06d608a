// The two ends of the downlink: parked, and on air as a cell or as a terminal.
#![tactic(auto)]

pub mod answers;
mod asking;
mod buffers;
pub mod cell;
mod checks;
pub mod fault;
pub mod parked;
pub mod terminal;
