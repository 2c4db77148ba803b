// What an example comes to.
ghost use Rattle.std.specs.Prelude.{◌≡◌, ◌↔◌, Ok, IsTrue};
ghost use Rattle.std.specs.Float.{binary64};
ghost use Rattle.std.specs.Float.Ieee.{to_bits};
ghost use Rattle.edges.specs.Values.{factor_value, run_value};

use jobs::answers::{Accepted, RefusedAt};
use objects::answers::Refusal;
use std::num::f64_to_bits_with_nan;

// The bits of a double or a count, or the number of the refusal.
pub type Value = Result<u64, u64>;

// A double, by its bits.
pub fn double_value(x: f64) -> Value
    ensures { result ≡ Ok (to_bits binary64 x) }
{
    Ok(f64_to_bits_with_nan(x))
}

// A factor by its bits, or the refusal's number, which `?` makes of it.
#[tactic(auto, unfolding(crate::specs::Values::factor_value))]
pub fn factor_value(answer: Result<f64, Refusal>) -> Value
    ensures { result ≡ factor_value answer }
{
    double_value(answer?)
}

// A run's count of steps, or the refusal's number.
#[tactic(auto, unfolding(crate::specs::Values::run_value))]
pub fn run_value(answer: Result<Accepted, RefusedAt>) -> Value
    ensures { result ≡ run_value answer }
{
    match answer {
        Ok(run) => Ok(run.count),
        Err(fault) => Err(u64::from(fault.refusal)),
    }
}

// The same word, or the same number.
pub fn same_value(a: Value, b: Value) -> bool
    ensures { IsTrue result ↔ a ≡ b }
{
    a == b
}
