// The run: the checks before the first step, then step by step.
ghost use Rattle.std.specs.Prelude.{◌≡◌, true, ◌*◌, ◌≤◌, length};
ghost use Rattle.doubles.specs.Arithmetic.{whole};
ghost use Rattle.object_checks.specs.Checks.{sectors_fine, window_fine};
ghost use Rattle.words.specs.Words.{word_count};
ghost use Rattle.sun.specs.Site.{site_fine, leap_year_of, hours_in_year};
ghost use Rattle.simulation_time.specs.Steps.{step_count};
ghost use Rattle.simulation_time.specs.RunChecks.{run_accepted};
ghost use Rattle.jobs.specs.JobChecks.{series_checked, checked};
ghost use Rattle.jobs.specs.Totals.{totals_count, with_totals};
ghost use Rattle.jobs.specs.Run.{ran, lent, left, room_fine, run_from, rows_stored, run_of};
ghost use Rattle.totals.specs.Kept.{emptied};
ghost use Rattle.runs.specs.Asked.{job_lent};

use crate::job::Job;
use crate::kept::{Kept, Setting};
use crate::series::series_fine;
use calendar::days_in_year;
use days::table::{DayTable, fill_days};
use fins::edition_fine;
use jobs::answers::{Accepted, RefusedAt};
use object_checks::lists::Sectors;
use object_checks::{sectors_fine, window_fine};
use objects::answers::Refusal;
use objects::records::window_of;
use objects::surface::surface_fine;
use seasons::leaf::Seasons;
use simulation_time::run::Run;
use simulation_time::steps::check_run;
use simulation_time::timestep::current_hour;
use steps::kept::fixed_of;
use steps::rows::{step_at, store_row, with_row};
use sun::site::{hours_in_year, leaf_days_fine, site_fine};
use totals::empty_totals;
use words::word_count;

// Room for the table of days, for the totals of the year and for every step's row.
fn room_fine(leap: bool, run: Run, count: u64, days: &[u8], totals: &[u8], results: &[u8]) -> bool
    requires { count ≡ step_count run }
    ensures { result ≡ room_fine leap run (lent days.now totals.now results.now) }
{
    let records = (days_in_year(leap) + 12) as usize;
    (8784 <= days.len())
        & ((24 * records <= totals.len()) & (6 * count <= word_count(results) as u64))
}

// Refusals 5 to 7: every step's index on all three series before any value, and the room.
fn check_series(
    job: &Job,
    count: u64,
    days: &[u8],
    totals: &[u8],
    results: &[u8],
) -> Result<u64, Refusal>
    requires start_day_bound { job.now.site.start_day ≤ 365 }
    requires count_value { count ≡ step_count job.now.run }
    ensures { result ≡ series_checked job.now.site.start_day job.now.site.time_series_step job.now.run
        job.now.series.diffuse.now job.now.series.direct.now job.now.series.reflectivity.now
        (room_fine (leap_year_of job.now.site) job.now.run (lent days.now totals.now results.now)) }
{
    let site = job.site;
    let start_day = site.start_day as u32;
    let fine = series_fine(job.run, count, start_day, site.time_series_step, job.series);
    if !fine.indices {
        return Err(Refusal::Series);
    }
    if !fine.readings {
        return Err(Refusal::Reading);
    }
    if !room_fine(site.leap_year == 1, job.run, count, days, totals, results) {
        return Err(Refusal::Results);
    }
    Ok(count)
}

// Refusals 14, 1, 15, then 2 to 7 in number order, or how many steps the job has.
fn check_job(job: &Job, days: &[u8], totals: &[u8], results: &[u8]) -> Result<u64, Refusal>
    ensures { result ≡ checked (job_lent job.now)
        (room_fine (leap_year_of job.now.site) job.now.run (lent days.now totals.now results.now)) }
{
    let site = job.site;
    if !edition_fine(job.edition) {
        return Err(Refusal::Edition);
    }
    if !site_fine(site) {
        return Err(Refusal::Site);
    }
    if !leaf_days_fine(site) {
        return Err(Refusal::LeafDay);
    }
    let Some(count) = check_run(job.run, hours_in_year(site)) else {
        return Err(Refusal::Run);
    };
    if !surface_fine(job.surface) {
        return Err(Refusal::Surface);
    }
    if !(sectors_fine(job.summer) & sectors_fine(job.winter) & window_fine(job.window)) {
        return Err(Refusal::Object);
    }
    check_series(job, count, days, totals, results)
}

// All steps of a job that has passed the checks.
fn run_steps(
    job: &Job,
    count: u64,
    days: DayTable,
    totals: &mut [u8],
    results: &mut [u8],
) -> Result<Accepted, RefusedAt>
    requires site_value { site_fine job.now.site ≡ true }
    requires run_value { run_accepted (hours_in_year job.now.site) job.now.run ≡ true }
    requires count_value { count ≡ step_count job.now.run }
    requires summer_value { sectors_fine job.now.summer.now ≡ true }
    requires winter_value { sectors_fine job.now.winter.now ≡ true }
    requires window_value { window_fine job.now.window.now ≡ true }
    requires totals_value { totals.old ≡ emptied (leap_year_of job.now.site) totals.old }
    requires site_in_bounds { 24 * totals_count (leap_year_of job.now.site) ≤ length totals.old }
    requires count_bound { 6 * count ≤ word_count results.old }
    ensures results_after { ran result results.new ≡ run_from count (job_lent job.now) 0 job.now.run.start (whole 0) results.old }
    ensures totals_after { totals.new ≡
        with_totals (leap_year_of job.now.site) job.now.run results.new (rows_stored result) totals.old }
{
    let site = job.site;
    let run = job.run;
    let setting = Setting {
        job: *job,
        seasons: Seasons {
            summer: Sectors { bytes: job.summer },
            winter: Sectors { bytes: job.winter },
            first: site.first_leaf_day,
            last: site.last_leaf_day,
        },
        fixed: fixed_of(site, job.surface),
        objects: window_of(job.window),
        days,
    };
    let mut kept = Kept::first(&setting, totals);
    let mut time = run.start;
    let mut sum = 0.0;
    for i in 0..count {
        let hour = current_hour(time);
        if hour != kept.hour.hour {
            kept.enter(&setting, totals, hour);
        }
        let answer = step_at(
            site,
            setting.fixed,
            kept.hour,
            kept.factor,
            time,
            job.series,
        );
        match answer {
            Err(refusal) => {
                kept.totals.store(totals);
                return Err(RefusedAt { refusal, step: i });
            }
            Ok(row) => {
                store_row(results, i as usize, row);
                kept.totals.add_row(run.step, row);
                sum = with_row(run.step, sum, row);
            }
        }
        time += run.step;
    }
    kept.totals.store(totals);
    Ok(Accepted { count, sum })
}

// One call of the run: the answer, the table of days, the totals of days and months, and in the results a row for each step.
pub fn run_job(
    job: &Job,
    days: &mut [u8],
    totals: &mut [u8],
    results: &mut [u8],
) -> Result<Accepted, RefusedAt>
    ensures { left result days.new totals.new results.new ≡ run_of (job_lent job.now) (lent days.old totals.old results.old) }
{
    let count = check_job(job, days, totals, results)?;
    fill_days(days);
    empty_totals(totals, job.site.leap_year == 1);
    run_steps(job, count, DayTable { bytes: days }, totals, results)
}
