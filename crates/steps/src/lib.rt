// What one step needs, for a run and for the calls for one step.
#![tactic(auto)]

pub mod kept;
pub mod rows;
