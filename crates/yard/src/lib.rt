// The yard: a bag of letters between clients and machines, and the steps that carry them.
#![tactic(auto)]

pub mod bag;
mod decide;
mod deliver;
pub mod fresh;
mod machine;
mod moves;
mod other_steps;
pub mod step;
mod unit_request;
mod units;
