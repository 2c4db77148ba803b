// The state of the sky and the irradiance on an inclined surface (ISO 52010-1), after the Rust's functions of these names.
#![tactic(auto)]

pub mod parts;
pub mod sky;
pub mod surface;
pub mod table;
