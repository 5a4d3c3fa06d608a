// A cell and the terminal that follows it, and the laws over whole runs of them.
#![tactic(auto)]

pub mod driver;
pub mod laws;
pub mod sink;
