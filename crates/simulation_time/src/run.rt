// The run that a job asks for.
ghost use Rattle.std.specs.Prelude.{◌≡◌};
ghost use Rattle.simulation_time.specs.Steps.{run_fine};

// From start to end by steps, all in hours from the start of the year.
#[derive(Clone, Copy)]
pub struct Run {
    pub start: f64,
    pub end: f64,
    pub step: f64,
}

// Start 0..8784, end above 0 and up to 8784, step 0.25..24, in hours.
pub fn run_fine(run: Run) -> bool
    ensures { result ≡ run_fine run }
{
    let start = (0.0 <= run.start) & (run.start <= 8784.0);
    let end = (0.0 < run.end) & (run.end <= 8784.0);
    let step = (0.25 <= run.step) & (run.step <= 24.0);
    start & end & step
}
