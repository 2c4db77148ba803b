// The factor of tall glazing, such as a stair window, that is cut into strips.
#![tactic(auto)]

pub mod factor;
pub mod glazing;
