// The run of a job.
#![tactic(auto)]

pub mod job;
mod kept;
pub mod run;
pub mod series;
