// The shading of a surface by distant and near objects (ISO 52016-1 Annex F), after the Rust's functions of these names.
#![tactic(auto)]

pub mod distant;
pub mod factor;
pub mod step;
pub mod sun_on_surface;
pub mod window;
