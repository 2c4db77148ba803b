// A line of the shade listing: what its values are answered with, and what is printed.
#![tactic(auto)]

pub mod line;
pub mod output;
