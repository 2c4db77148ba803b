// A site, and the sun's angles there (ISO 52010-1), after the `init_` functions of the Rust.
#![tactic(auto)]

pub mod hour;
pub mod site;
