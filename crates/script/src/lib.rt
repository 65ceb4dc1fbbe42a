// Plays: a layout and the steps of a yard as bytes, read and written exactly.
#![tactic(auto)]

pub mod judge;
pub mod step;
pub mod write;
