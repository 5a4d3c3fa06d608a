// The resource grid of a subframe: what each element is for, and writing and reading a grid.
#![tactic(auto)]

pub mod places;
pub mod purpose;
pub mod reference;
pub mod shift;
pub mod subframe;
pub mod things;
