// The calendar of the downlink: identities, times, grants, and which part of a word goes out when.
#![tactic(auto)]

pub mod course;
pub mod fault;
pub mod grant;
pub mod identity;
pub mod time;
