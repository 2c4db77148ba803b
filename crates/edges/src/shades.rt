// The calls of the examples on shading and on runs, in edition 1 where none is named. The sun has altitude 0; the surface faces
// south, upright, with base 0, height 2 and width 1.
ghost use Rattle.std.specs.Prelude.{◌≡◌, [], replicate};
ghost use Rattle.doubles.specs.Arithmetic.{whole};
ghost use Rattle.jobs.specs.Run.{lent, run_of};
ghost use Rattle.lines.specs.Line.{whole_horizon};
ghost use Rattle.edges.specs.Shades.{south_wall, factor_at, horizon_with, two_sectors, near_obstacle, window_with, one_part, three_hours};

use jobs::answers::{Accepted, RefusedAt};
use lines::line::{listed_factor, one_obstacle, whole_horizon};
use objects::answers::Refusal;
use objects::surface::Surface;
use runs::job::Job;
use simulation_time::run::Run;
use sun::site::Site;
use weather::Series;

fn south_wall() -> Surface
    ensures { result ≡ south_wall }
{
    Surface {
        tilt: 90.0,
        orientation: 180.0,
        base_height: 0.0,
        height: 2.0,
        width: 1.0,
    }
}

fn factor_at(edition: u64, azimuth: f64, sectors: &[u8], window: &[u8]) -> Result<f64, Refusal>
    ensures { result ≡ factor_at edition azimuth sectors.now window.now }
{
    shading::step::factor_call(edition, 0.0, azimuth, south_wall(), sectors, window)
}

// The sun in the south, and a near obstacle of 1 m and transparency 0.5 or nothing at the window.
fn factor_near(sectors: &[u8], near: bool) -> Result<f64, Refusal>
    ensures { result ≡ factor_at 1 (whole 0) sectors.now (window_with near) }
{
    if near {
        let window = one_obstacle(1.0, 3.0, 0.5);
        return factor_at(1, 0.0, sectors, &window);
    }
    factor_at(1, 0.0, sectors, b"")
}

// The near obstacle and no distant object: what a line of the shade listing stands for.
pub fn near_factor() -> Result<f64, Refusal>
    ensures { result ≡ factor_at 1 (whole 0) whole_horizon near_obstacle }
{
    listed_factor(0.0, 0.0, south_wall(), 1.0, 3.0, 0.5)
}

// One distant object: 0 obstacle, 1 overhang, as the word that its record has.
pub fn distant_factor(kind: u64, height: f64, near: bool) -> Result<f64, Refusal>
    ensures { result ≡ factor_at 1 (whole 0) (horizon_with kind height) (window_with near) }
{
    let mut sectors = whole_horizon();
    words::store_word(&mut sectors, 2, 1);
    words::store_word(&mut sectors, 3, kind);
    words::store_double(&mut sectors, 4, height);
    words::store_double(&mut sectors, 5, 10.0);
    factor_near(&sectors, near)
}

// One object right at the window: 1 overhang, 2 right fin, 3 left fin, 4 reveal.
pub fn part_factor(edition: u64, kind: u64, depth: f64, azimuth: f64) -> Result<f64, Refusal>
    ensures { result ≡ factor_at edition azimuth whole_horizon (one_part kind depth) }
{
    let sectors = whole_horizon();
    let mut window = [0u8; 32];
    words::store_word(&mut window, 0, kind);
    words::store_double(&mut window, 1, depth);
    factor_at(edition, azimuth, &sectors, &window)
}

// Sectors 0..180 and start..360, without objects.
pub fn two_sectors_factor(start: f64, azimuth: f64) -> Result<f64, Refusal>
    ensures { result ≡ factor_at 1 azimuth (two_sectors start) [] }
{
    let mut sectors = [0u8; 432];
    words::store_double(&mut sectors, 1, 180.0);
    words::store_double(&mut sectors, 27, start);
    words::store_double(&mut sectors, 28, 360.0);
    factor_at(1, azimuth, &sectors, b"")
}

// A run from 0 to 3 by steps of 1.
pub fn three_hours(first_leaf_day: u64, last_leaf_day: u64) -> Result<Accepted, RefusedAt>
    ensures { result ≡ (run_of (three_hours first_leaf_day last_leaf_day) (lent (replicate 8784 0) (replicate 9048 0) (replicate 144 0))).ran.answer }
{
    let site = Site {
        latitude: 51.0,
        longitude: 0.0,
        timezone: 0,
        start_day: 0,
        time_series_step: 1.0,
        leap_year: 0,
        direct_beam_conversion: 0,
        first_leaf_day,
        last_leaf_day,
    };
    let run = Run {
        start: 0.0,
        end: 3.0,
        step: 1.0,
    };
    let values = [0u8; 24];
    let sectors = whole_horizon();
    let job = Job {
        edition: 1,
        site,
        run,
        surface: south_wall(),
        series: Series {
            diffuse: &values,
            direct: &values,
            reflectivity: &values,
        },
        summer: &sectors,
        winter: &sectors,
        window: b"",
    };
    let mut days = [0u8; 8784];
    let mut totals = [0u8; 9048];
    let mut results = [0u8; 144];
    runs::run::run_job(&job, &mut days, &mut totals, &mut results)
}
