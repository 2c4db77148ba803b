// Jobs: what goes into a job and what comes out of it. The definitions of a run and of two jobs compared stand in specs/, the laws of
// both in proofs/; the code that meets them is in the crates `steps`, `totals`, `single_steps` and `runs`.
#![tactic(auto)]

pub mod answers;
