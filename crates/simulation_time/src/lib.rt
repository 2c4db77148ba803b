// The steps of a run, after the Rust's `simulation_time.rs`: how many there are, and a step's hour and place in a weather series.
#![tactic(auto)]

pub mod run;
pub mod steps;
pub mod timestep;
