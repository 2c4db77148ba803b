// The calls for one step.
#![tactic(auto)]

ghost use Rattle.std.specs.Prelude.{◌≡◌, Ok, ◌/◌};
ghost use Rattle.simulation_time.specs.Timestep.{current_hour};
ghost use Rattle.seasons.specs.Seasons.{sectors_for};
ghost use Rattle.jobs.specs.Step.{sun_at, irradiance_at, step_with};
ghost use Rattle.single_steps.specs.Single.{single_number, time_fine, setting_checked, values_checked, called};
ghost use Rattle.single_steps.specs.Single.{step_call, put_breakdown, irradiance_call};

use fins::edition_fine;
use irradiance::parts::Irradiance;
use jobs::answers::Row;
use object_checks::lists::Window;
use objects::answers::Refusal;
use objects::surface::{Surface, surface_fine};
use seasons::leaf::Seasons;
use shading::step::direct_shading_reduction_factor;
use simulation_time::timestep::current_hour;
use steps::kept::{fixed_of, irradiance_kept, kept_day, kept_hour};
use steps::rows::{step_row, store_row};
use sun::hour::Hour;
use sun::site::{Site, hours_in_year, leaf_days_fine, site_fine};
use weather::{Reading, reading_fine};
use words::{store_double, word_count};

// The words of a step's row, and of an irradiance with its breakdown.
const ROW_WORDS: usize = 6;

const BREAKDOWN_WORDS: usize = 9;

// 0 where a call is accepted, else the refusal's number. No `From`, since both types are the library's.
#[tactic(auto, unfolding(crate::specs::Single::single_number))]
pub fn single_number(answer: Result<(), Refusal>) -> u64
    ensures { result ≡ single_number answer }
{
    match answer {
        Ok(()) => 0,
        Err(refusal) => u64::from(refusal),
    }
}

// Refusal 2 of one step: its time, in hours, is in the year.
fn time_fine(site: Site, time: f64) -> bool
    ensures { result ≡ time_fine site time }
{
    (0.0 <= time) & (time <= 8784.0) & (current_hour(time) < hours_in_year(site))
}

// Refusals 1, 15, 2 and 3.
#[tactic(auto, unfolding(crate::specs::Single::setting_checked, jobs::specs::JobChecks::tried))]
fn check_setting(site: Site, time: f64, surface: Surface) -> Result<(), Refusal>
    ensures { result ≡ setting_checked site time surface (Ok tt) }
{
    if !site_fine(site) {
        return Err(Refusal::Site);
    }
    if !leaf_days_fine(site) {
        return Err(Refusal::LeafDay);
    }
    if !time_fine(site, time) {
        return Err(Refusal::Run);
    }
    if !surface_fine(surface) {
        return Err(Refusal::Surface);
    }
    Ok(())
}

// Refusals 6 and 7, where the results take so many words.
#[tactic(auto, unfolding(crate::specs::Single::values_checked, jobs::specs::JobChecks::tried))]
fn check_values(reading: Reading, words: usize, results: &[u8]) -> Result<(), Refusal>
    ensures { result ≡ values_checked reading words results.now }
{
    if !reading_fine(reading) {
        return Err(Refusal::Reading);
    }
    if word_count(results) < words {
        return Err(Refusal::Results);
    }
    Ok(())
}

// The step at a time.
fn step_with(
    edition: u64,
    site: Site,
    time: f64,
    surface: Surface,
    reading: Reading,
    seasons: Seasons,
    window: Window,
) -> Result<Row, Refusal>
    ensures { result ≡ step_with edition site surface
        (sectors_for seasons.entry.summer.bytes.now seasons.entry.winter.bytes.now seasons.entry.first seasons.entry.last (current_hour time / 24))
        window.entry.bytes.now time reading }
{
    let fixed = fixed_of(site, surface);
    let hour = current_hour(time);
    let day = kept_day(hour / 24);
    let kept = kept_hour(site, surface, fixed, day, hour);
    let sectors = seasons.sectors((hour / 24) as u64);
    let factor = direct_shading_reduction_factor(
        edition,
        surface,
        kept.sun.altitude,
        kept.sun.azimuth,
        sectors,
        window,
    );
    step_row(fixed, site.direct_beam_conversion, kept, factor, reading)
}

// The row of one step, in the first six words of the results.
pub fn step_call<'a>(
    edition: u64,
    site: Site,
    time: f64,
    surface: Surface,
    reading: Reading,
    summer: &'a [u8],
    winter: &'a [u8],
    window: &[u8],
    results: &mut [u8],
) -> Result<(), Refusal>
    ensures { called result results.new
        ≡ step_call edition site time surface reading summer.now winter.now window.now results.old }
{
    if !edition_fine(edition) {
        return Err(Refusal::Edition);
    }
    check_setting(site, time, surface)?;
    let seasons = Seasons::check(summer, winter, site.first_leaf_day, site.last_leaf_day)?;
    let window = Window::check(window)?;
    check_values(reading, ROW_WORDS, results)?;
    let row = step_with(edition, site, time, surface, reading, seasons, window)?;
    store_row(results, 0, row);
    Ok(())
}

// The sun in an hour, and the irradiance at a step of it.
#[derive(Clone, Copy)]
struct SunAndIrradiance {
    sun: Hour,
    parts: Irradiance,
}

fn irradiance_with(site: Site, time: f64, surface: Surface, reading: Reading) -> SunAndIrradiance
    ensures { (result.sun ≡ sun_at site time) × (result.parts ≡ irradiance_at site surface time reading) }
{
    let fixed = fixed_of(site, surface);
    let hour = current_hour(time);
    let day = kept_day(hour / 24);
    let kept = kept_hour(site, surface, fixed, day, hour);
    let parts = irradiance_kept(fixed, site.direct_beam_conversion, kept, reading);
    SunAndIrradiance {
        sun: kept.sun,
        parts,
    }
}

fn store_breakdown(results: &mut [u8], sun: Hour, parts: Irradiance)
    ensures { results.new ≡ put_breakdown results.old sun parts }
{
    store_double(results, 0, sun.altitude);
    store_double(results, 1, sun.azimuth);
    store_double(results, 2, parts.direct);
    store_double(results, 3, parts.diffuse);
    store_double(results, 4, parts.total);
    store_double(results, 5, parts.sky);
    store_double(results, 6, parts.circumsolar);
    store_double(results, 7, parts.horizontal);
    store_double(results, 8, parts.from_ground);
}

// The sun and the irradiance of one step with its breakdown, in the first nine words of the results.
pub fn irradiance_call(
    site: Site,
    time: f64,
    surface: Surface,
    reading: Reading,
    results: &mut [u8],
) -> Result<(), Refusal>
    ensures { called result results.new ≡ irradiance_call site time surface reading results.old }
{
    check_setting(site, time, surface)?;
    check_values(reading, BREAKDOWN_WORDS, results)?;
    let both = irradiance_with(site, time, surface, reading);
    store_breakdown(results, both.sun, both.parts);
    Ok(())
}
