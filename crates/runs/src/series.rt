// The three weather series at all steps (refusals 5 and 6).
ghost use Rattle.std.specs.Prelude.{◌≡◌};
ghost use Rattle.simulation_time.specs.Steps.{times_from};
ghost use Rattle.jobs.specs.JobChecks.{indices_fine, readings_fine};

use simulation_time::run::Run;
use simulation_time::timestep::time_series_idx;
use weather::{Series, reading_fine};

// Of all steps: whether every index is on all three series, and whether every value is in its range. Two flags and no refusal, since
// both are told (the clauses of `series_fine`): a refusal at the first index past the end would leave the values after it untold.
#[derive(Clone, Copy)]
pub struct SeriesFine {
    pub indices: bool,
    pub readings: bool,
}

// Looks at the first `count` steps of a run; the series' step is in hours.
pub fn series_fine(
    run: Run,
    count: u64,
    start_day: u32,
    series_step: f64,
    series: Series,
) -> SeriesFine
    ensures indices { result.indices ≡ indices_fine start_day series_step
        series.entry.diffuse.now series.entry.direct.now series.entry.reflectivity.now
        (times_from count run.step run.start) }
    ensures readings { result.readings ≡ readings_fine start_day series_step
        series.entry.diffuse.now series.entry.direct.now series.entry.reflectivity.now
        (times_from count run.step run.start) }
{
    let mut indices = true;
    let mut readings = true;
    let mut time = run.start;
    for _ in 0..count {
        let index = time_series_idx(time, start_day, series_step);
        indices &= series.has_value_at(index);
        readings &= reading_fine(series.reading_at(index));
        time += run.step;
    }
    SeriesFine { indices, readings }
}
