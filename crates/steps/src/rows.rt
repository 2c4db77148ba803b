// A step's row: from what is kept and the series' values, stored, and added to the sum.
ghost use Rattle.std.specs.Prelude.{◌≡◌, ◌<◌, ◌≤◌};
ghost use Rattle.simulation_time.specs.Timestep.{series_index};
ghost use Rattle.weather.specs.Weather.{read_series};
ghost use Rattle.jobs.specs.Step.{row_with};
ghost use Rattle.steps.specs.Kept.{irradiance_kept, step_kept};
ghost use Rattle.jobs.specs.Rows.{put_row, with_row};

use crate::kept::{Fixed, KeptHour, irradiance_kept};
use jobs::answers::Row;
use objects::answers::Refusal;
use simulation_time::timestep::time_series_idx;
use sun::site::Site;
use weather::{Reading, Series};
use words::store_double;

// The step's row where its hour has a factor.
pub fn step_row(
    fixed: Fixed,
    conversion: u64,
    kept: KeptHour,
    factor: Result<f64, Refusal>,
    reading: Reading,
) -> Result<Row, Refusal>
    ensures { result ≡ row_with kept.sun (irradiance_kept fixed conversion kept reading) factor }
{
    let factor = factor?;
    let parts = irradiance_kept(fixed, conversion, kept, reading);
    Ok(Row {
        altitude: kept.sun.altitude,
        azimuth: kept.sun.azimuth,
        direct: parts.direct,
        diffuse: parts.diffuse,
        total: parts.total,
        factor,
    })
}

// The step at a time in hours, whose hour is kept.
pub fn step_at(
    site: Site,
    fixed: Fixed,
    kept: KeptHour,
    factor: Result<f64, Refusal>,
    time: f64,
    series: Series,
) -> Result<Row, Refusal>
    requires { site.start_day ≤ 365 }
    ensures { result ≡ step_kept site fixed kept factor
        (read_series series.entry.diffuse.now series.entry.direct.now series.entry.reflectivity.now
        (series_index time site.start_day site.time_series_step)) }
{
    let index = time_series_idx(time, site.start_day as u32, site.time_series_step);
    let reading = series.reading_at(index);
    step_row(fixed, site.direct_beam_conversion, kept, factor, reading)
}

// Stores the i-th row.
pub fn store_row(results: &mut [u8], i: usize, row: Row)
    requires { i < 35137 }
    ensures { results.new ≡ put_row results.old i row }
{
    let k = 6 * i;
    store_double(results, k, row.altitude);
    store_double(results, k + 1, row.azimuth);
    store_double(results, k + 2, row.direct);
    store_double(results, k + 3, row.diffuse);
    store_double(results, k + 4, row.total);
    store_double(results, k + 5, row.factor);
}

// The sum with a row's direct sun that gets past the shade, in Wh/m²; the step is in hours.
pub fn with_row(step: f64, sum: f64, row: Row) -> f64
    ensures { result ≡ with_row step sum row }
{
    sum + row.factor * row.direct * step
}
