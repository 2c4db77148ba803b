// A step's hour and place in a weather series. Where a time is not negative its whole part is its floor, and of what is negative
// the Rust's `as` makes 0, so one saturating cast does for floor and `as`.
ghost use Rattle.std.specs.Prelude.{◌≡◌};
ghost use Rattle.simulation_time.specs.Timestep.{current_hour, series_index};

use std::num::{saturating_f64_to_u32, saturating_f64_to_usize};

// The hour of the year that a time in hours is in, both from 0.
pub fn current_hour(time: f64) -> u32
    ensures { result ≡ current_hour time }
{
    saturating_f64_to_u32(time)
}

// Which value of a weather series holds at a time, in hours from the start of the year. The series begins with its start day and has
// a value each so many hours.
pub fn time_series_idx(time: f64, start_day: u32, time_series_step: f64) -> usize
    ensures { result ≡ series_index time start_day time_series_step }
{
    saturating_f64_to_usize((time - (start_day as u64 * 24) as f64) / time_series_step)
}
