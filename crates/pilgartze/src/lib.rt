// The library that a C program links. Each function checks all that it is given, ends, and touches nothing but the results,
// the totals and the table of days.
// `include/pilgartze.h` says the same for C.
#![tactic(auto)]

ghost use Rattle.std.specs.Prelude.{◌≡◌};
ghost use Rattle.shading.specs.Call.{factor_call};
ghost use Rattle.doubles.specs.Order.{Fits};
ghost use Rattle.shading_laws.specs.Premises.{Doubles};
ghost use Rattle.strips.specs.Strips.{strips_call};
ghost use Rattle.jobs.specs.Job.{job_of};
ghost use Rattle.jobs.specs.Run.{lent, run_of};
ghost use Rattle.single_steps.specs.Single.{step_call, irradiance_call};
ghost use Rattle.pilgartze.specs.CallAnswers.{answer_for, factor_for, run_leaves, call_leaves, site_of, times_of, surface_of, glazing_of, reading_of};
ghost use Rattle.pilgartze.specs.Version.{version};

use jobs::answers::{Accepted, RefusedAt};
use objects::answers::Refusal;
use objects::surface::Surface;
use runs::job::Job;
use simulation_time::run::Run;
use strips::glazing::TallGlazing;
use sun::site::Site;
use weather::{Reading, Series};

// What a run answers: the refusal's number, or 0, and its step; the step count and the sum in Wh/m², both 0 on a refusal.
#[repr(C)]
#[derive(Clone, Copy)]
pub struct Answer {
    pub number: u64,
    pub step: u64,
    pub count: u64,
    pub sum: f64,
}

// What a factor call and a call for strips answer: the refusal's number, or 0 and the factor.
#[repr(C)]
#[derive(Clone, Copy)]
pub struct ShadingFactor {
    pub number: u64,
    pub factor: f64,
}

impl From<Result<Accepted, RefusedAt>> for Answer {
    ghost from_gives = { λ outcome answer. answer ≡ answer_for outcome };

    #[tactic(auto, unfolding(crate::specs::CallAnswers::answer_for, jobs::specs::Run::number_for, jobs::specs::Run::step_for, jobs::specs::Run::count_for, jobs::specs::Run::sum_for, doubles::specs::Arithmetic::whole))]
    fn from(outcome: Result<Accepted, RefusedAt>) -> Answer {
        match outcome {
            Ok(run) => Answer {
                number: 0,
                step: 0,
                count: run.count,
                sum: run.sum,
            },
            Err(fault) => Answer {
                number: u64::from(fault.refusal),
                step: fault.step,
                count: 0,
                sum: 0.0,
            },
        }
    }
}

impl From<Result<f64, Refusal>> for ShadingFactor {
    ghost from_gives = { λ outcome answer. answer ≡ factor_for outcome };

    #[tactic(auto, unfolding(crate::specs::CallAnswers::factor_for, doubles::specs::Arithmetic::whole))]
    fn from(outcome: Result<f64, Refusal>) -> ShadingFactor {
        match outcome {
            Ok(factor) => ShadingFactor { number: 0, factor },
            Err(refusal) => ShadingFactor {
                number: u64::from(refusal),
                factor: 0.0,
            },
        }
    }
}

fn site_of(
    latitude: f64,
    longitude: f64,
    timezone: i64,
    start_day: u64,
    series_step: f64,
    leap_year: u64,
    direct_beam_conversion: u64,
    first_leaf_day: u64,
    last_leaf_day: u64,
) -> Site
    ensures { result ≡ site_of latitude longitude timezone start_day series_step leap_year direct_beam_conversion first_leaf_day last_leaf_day }
{
    Site {
        latitude,
        longitude,
        timezone,
        start_day,
        time_series_step: series_step,
        leap_year,
        direct_beam_conversion,
        first_leaf_day,
        last_leaf_day,
    }
}

fn surface_of(tilt: f64, orientation: f64, base_height: f64, height: f64, width: f64) -> Surface
    ensures { result ≡ surface_of tilt orientation base_height height width }
{
    Surface {
        tilt,
        orientation,
        base_height,
        height,
        width,
    }
}

// The version of the library that is linked: 6.1.0, as the header's PILGARTZE_VERSION.
#[unsafe(no_mangle)]
pub extern "C" fn pilgartze_version() -> u64
    ensures { result ≡ version }
{
    6001000
}

// A run: the table of days, the totals of each day and month, a row of six doubles for each step, and the sum of factor times direct
// times step. That height and width are doubles is what the claim on two jobs compared asks of them (`Comparison` of `jobs`).
#[unsafe(no_mangle)]
pub extern "C" fn pilgartze_run<'a>(
    edition: u64,
    latitude: f64,
    longitude: f64,
    timezone: i64,
    start_day: u64,
    series_step: f64,
    leap_year: u64,
    direct_beam_conversion: u64,
    first_leaf_day: u64,
    last_leaf_day: u64,
    start: f64,
    end: f64,
    step: f64,
    tilt: f64,
    orientation: f64,
    base_height: f64,
    height: f64,
    width: f64,
    diffuse: &[u8],
    direct: &[u8],
    reflectivity: &[u8],
    summer: &'a [u8],
    winter: &'a [u8],
    window: &[u8],
    days: &mut [u8],
    totals: &mut [u8],
    results: &mut [u8],
) -> Answer
    ensures results_after { (result, days.new, totals.new, results.new) ≡ run_leaves (run_of
        (job_of edition (site_of latitude longitude timezone start_day series_step leap_year direct_beam_conversion first_leaf_day last_leaf_day)
        (times_of start end step) (surface_of tilt orientation base_height height width)
        diffuse.now direct.now reflectivity.now summer.now winter.now window.now)
        (lent days.old totals.old results.old)) }
    ensures doubles { Doubles (surface_of tilt orientation base_height height width) }
{
    let site = site_of(
        latitude,
        longitude,
        timezone,
        start_day,
        series_step,
        leap_year,
        direct_beam_conversion,
        first_leaf_day,
        last_leaf_day,
    );
    let times = Run { start, end, step };
    let surface = surface_of(tilt, orientation, base_height, height, width);
    let job = Job {
        edition,
        site,
        run: times,
        surface,
        series: Series {
            diffuse,
            direct,
            reflectivity,
        },
        summer,
        winter,
        window,
    };
    Answer::from(runs::run::run_job(&job, days, totals, results))
}

// One step: the row that a run has at that time, in the first six words of the results. Answers 0, or the refusal's number.
#[unsafe(no_mangle)]
pub extern "C" fn pilgartze_step<'a>(
    edition: u64,
    latitude: f64,
    longitude: f64,
    timezone: i64,
    start_day: u64,
    series_step: f64,
    leap_year: u64,
    direct_beam_conversion: u64,
    first_leaf_day: u64,
    last_leaf_day: u64,
    time: f64,
    tilt: f64,
    orientation: f64,
    base_height: f64,
    height: f64,
    width: f64,
    diffuse: f64,
    direct: f64,
    reflectivity: f64,
    summer: &'a [u8],
    winter: &'a [u8],
    window: &[u8],
    results: &mut [u8],
) -> u64
    ensures { (result, results.new) ≡ call_leaves (step_call edition
        (site_of latitude longitude timezone start_day series_step leap_year direct_beam_conversion first_leaf_day last_leaf_day) time
        (surface_of tilt orientation base_height height width) (reading_of diffuse direct reflectivity)
        summer.now winter.now window.now results.old) }
{
    let site = site_of(
        latitude,
        longitude,
        timezone,
        start_day,
        series_step,
        leap_year,
        direct_beam_conversion,
        first_leaf_day,
        last_leaf_day,
    );
    let surface = surface_of(tilt, orientation, base_height, height, width);
    let reading = Reading {
        diffuse,
        direct,
        reflectivity,
    };
    single_steps::single_number(single_steps::step_call(
        edition, site, time, surface, reading, summer, winter, window, results,
    ))
}

// One step's sun and irradiance with its breakdown, in the first nine words of the results. Answers 0, or the refusal's number.
#[unsafe(no_mangle)]
pub extern "C" fn pilgartze_irradiance(
    latitude: f64,
    longitude: f64,
    timezone: i64,
    start_day: u64,
    series_step: f64,
    leap_year: u64,
    direct_beam_conversion: u64,
    first_leaf_day: u64,
    last_leaf_day: u64,
    time: f64,
    tilt: f64,
    orientation: f64,
    base_height: f64,
    height: f64,
    width: f64,
    diffuse: f64,
    direct: f64,
    reflectivity: f64,
    results: &mut [u8],
) -> u64
    ensures { (result, results.new) ≡ call_leaves (irradiance_call
        (site_of latitude longitude timezone start_day series_step leap_year direct_beam_conversion first_leaf_day last_leaf_day) time
        (surface_of tilt orientation base_height height width) (reading_of diffuse direct reflectivity)
        results.old) }
{
    let site = site_of(
        latitude,
        longitude,
        timezone,
        start_day,
        series_step,
        leap_year,
        direct_beam_conversion,
        first_leaf_day,
        last_leaf_day,
    );
    let surface = surface_of(tilt, orientation, base_height, height, width);
    let reading = Reading {
        diffuse,
        direct,
        reflectivity,
    };
    single_steps::single_number(single_steps::irradiance_call(
        site, time, surface, reading, results,
    ))
}

// The direct shading factor of one step.
#[unsafe(no_mangle)]
pub extern "C" fn pilgartze_factor(
    edition: u64,
    altitude: f64,
    azimuth: f64,
    tilt: f64,
    orientation: f64,
    base_height: f64,
    height: f64,
    width: f64,
    sectors: &[u8],
    window: &[u8],
) -> ShadingFactor
    ensures value { result ≡ factor_for (factor_call edition altitude azimuth (surface_of tilt orientation base_height height width)
        sectors.now window.now) }
    ensures doubles { Doubles (surface_of tilt orientation base_height height width) }
{
    let surface = surface_of(tilt, orientation, base_height, height, width);
    ShadingFactor::from(shading::step::factor_call(
        edition, altitude, azimuth, surface, sectors, window,
    ))
}

// The direct shading factor of tall glazing in strips, at one step. That the width is a double is what the laws of strips ask of it
// (`Laws` of `strips`).
#[unsafe(no_mangle)]
pub extern "C" fn pilgartze_strips(
    edition: u64,
    altitude: f64,
    azimuth: f64,
    tilt: f64,
    orientation: f64,
    base_height: f64,
    width: f64,
    heights: &[u8],
    sectors: &[u8],
    window: &[u8],
) -> ShadingFactor
    ensures value { result ≡ factor_for (strips_call edition altitude azimuth (glazing_of tilt orientation base_height width)
        heights.now sectors.now window.now) }
    ensures fits { Fits width }
{
    let glazing = TallGlazing {
        tilt,
        orientation,
        base_height,
        width,
    };
    ShadingFactor::from(strips::factor::strips_call(
        edition, altitude, azimuth, glazing, heights, sectors, window,
    ))
}
