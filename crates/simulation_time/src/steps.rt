// How many steps a run has, and whether it is turned down (refusal 2).
ghost use Rattle.std.specs.Prelude.{◌≡◌, true};
ghost use Rattle.simulation_time.specs.Steps.{run_fine, steps_of};
ghost use Rattle.simulation_time.specs.RunChecks.{counted_run, checked_run};

use crate::run::{Run, run_fine};
use crate::timestep::current_hour;

// How many steps there are, and the time of the last one; the run's start where there is none.
#[derive(Clone, Copy)]
pub struct Steps {
    pub count: u64,
    pub last: f64,
}

fn count_steps(run: Run) -> Steps
    requires { run_fine run ≡ true }
    ensures { result ≡ steps_of run }
{
    if run.start == run.end {
        return Steps {
            count: 0,
            last: run.start,
        };
    }
    let mut count: u64 = 1;
    let mut time = run.start;
    // Counts times, which are doubles and no index.
    while time < run.end - run.step {
        time += run.step;
        count += 1;
    }
    Steps { count, last: time }
}

// How many steps a run has, also one that runs past the end of the year; none where a field is out of its range.
pub fn step_count(run: Run) -> Option<u64>
    ensures { result ≡ counted_run run }
{
    if run_fine(run) {
        Some(count_steps(run).count)
    } else {
        None
    }
}

// Refusal 2, where a year has so many hours: none where a run is turned down, else how many steps it has. Times never fall, so the last
// step has the latest hour.
pub fn check_run(run: Run, hours: u32) -> Option<u64>
    ensures { result ≡ checked_run hours run }
{
    if !run_fine(run) {
        return None;
    }
    let steps = count_steps(run);
    let in_year = (steps.count == 0) | (current_hour(steps.last) < hours);
    in_year.then_some(steps.count)
}
