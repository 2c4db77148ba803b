// Runs: 33 words, then the eight lists, the results and the totals as they are afterwards.
ghost use Rattle.std.specs.Prelude.{◌≡◌, ◌≤◌, length};
ghost use Rattle.jobs.specs.Run.{lent, run_of};
ghost use Rattle.kept_answers.specs.Differs.{whole_of, site_of, run_at, kept_job, is_run, answer_kept, totals_kept, run_kept, lists_for, series_kept, run_differs};

use crate::parts::{list_end, surface_at};
use jobs::answers::{Accepted, RefusedAt};
use runs::job::Job;
use runs::run::run_job;
use simulation_time::run::Run;
use std::num::f64_to_bits_with_nan;
use sun::site::Site;
use text::same_text;
use weather::Series;
use words::{double_at, word_at};

// The whole number that a double is; 0 where it is none of 64 bits, which a saturating cast would make the nearest that is.
fn whole_of(x: f64) -> i64
    ensures { result ≡ whole_of x }
{
    if x >= -9223372036854775808.0 {
        if x < 9223372036854775808.0 {
            return std::num::truncating_f64_to_i64(x);
        }
    }
    0
}

fn site_of(kept: &[u8]) -> Site
    ensures { result ≡ site_of kept.now }
{
    Site {
        latitude: double_at(kept, 3),
        longitude: double_at(kept, 4),
        timezone: whole_of(double_at(kept, 5)),
        start_day: word_at(kept, 6),
        time_series_step: double_at(kept, 7),
        leap_year: word_at(kept, 8),
        direct_beam_conversion: word_at(kept, 9),
        first_leaf_day: word_at(kept, 10),
        last_leaf_day: word_at(kept, 11),
    }
}

fn run_of(kept: &[u8]) -> Run
    ensures { result ≡ run_at kept.now }
{
    Run {
        start: double_at(kept, 12),
        end: double_at(kept, 13),
        step: double_at(kept, 14),
    }
}

// Whether number, step, count and sum are the record's.
fn is_answer(kept: &[u8], number: u64, step: u64, count: u64, sum: f64) -> bool
    ensures { result ≡ is_run kept.now number step count sum }
{
    let numbers = (word_at(kept, 28) == number) & (word_at(kept, 29) == step);
    let sums = (word_at(kept, 30) == count) & (word_at(kept, 31) == f64_to_bits_with_nan(sum));
    numbers & sums
}

fn answers(kept: &[u8], answer: Result<Accepted, RefusedAt>) -> bool
    ensures { result ≡ answer_kept kept.now answer }
{
    match answer {
        Ok(run) => is_answer(kept, 0, 0, run.count, run.sum),
        Err(fault) => is_answer(kept, u64::from(fault.refusal), fault.step, 0, 0.0),
    }
}

// Whether totals are as the record has them. One that does not keep them has an empty list.
fn totals_kept(kept: &[u8], totals: &[u8]) -> bool
    ensures { result ≡ totals_kept kept.now totals.now }
{
    kept.is_empty() || same_text(totals, kept)
}

// The lists of a record: those of its job, and the results and the totals as the run leaves them.
#[derive(Clone, Copy)]
struct Lists<'a> {
    diffuse: &'a [u8],
    direct: &'a [u8],
    reflectivity: &'a [u8],
    summer: &'a [u8],
    winter: &'a [u8],
    window: &'a [u8],
    results: &'a [u8],
    totals: &'a [u8],
}

// Whether a run with these lists answers as the record says, and leaves that in its results and its totals.
fn is_answered(
    kept: &[u8],
    lists: Lists<'_>,
    days: &mut [u8],
    totals: &mut [u8],
    results: &mut [u8],
) -> bool
    ensures { result ≡ run_kept kept.now lists.entry.results.now lists.entry.totals.now
        (run_of (kept_job kept.now lists.entry.diffuse.now lists.entry.direct.now lists.entry.reflectivity.now
        lists.entry.summer.now lists.entry.winter.now lists.entry.window.now) (lent days.old totals.old results.old)) }
{
    let job = Job {
        edition: word_at(kept, 2),
        site: site_of(kept),
        run: run_of(kept),
        surface: surface_at(kept, 15),
        series: Series {
            diffuse: lists.diffuse,
            direct: lists.direct,
            reflectivity: lists.reflectivity,
        },
        summer: lists.summer,
        winter: lists.winter,
        window: lists.window,
    };
    let answer = run_job(&job, days, totals, results);
    same_text(results, lists.results) & totals_kept(lists.totals, totals) & answers(kept, answer)
}

// Lends a table of days, as many bytes of totals as the record says, at most 9,080, and of results as there are afterwards, at most
// 20,000.
fn with_lists(kept: &[u8], lists: Lists<'_>) -> bool
    ensures { result ≡ run_kept kept.now lists.entry.results.now lists.entry.totals.now
        (run_of (kept_job kept.now lists.entry.diffuse.now lists.entry.direct.now lists.entry.reflectivity.now
        lists.entry.summer.now lists.entry.winter.now lists.entry.window.now) (lists_for kept.now lists.entry.results.now)) }
{
    let mut days = [0xA5u8; 8784];
    let mut totals = [0xA5u8; 9080];
    let mut results = [0xA5u8; 20000];
    let m = (word_at(kept, 32) as usize).min(9080);
    let n = lists.results.len().min(20000);
    is_answered(kept, lists, &mut days, &mut totals[..m], &mut results[..n])
}

// The lists of objects, the results and the totals begin where the series end.
fn with_series(bytes: &[u8], at: usize, diffuse: &[u8], direct: &[u8], reflectivity: &[u8]) -> bool
    requires { at ≤ length bytes.now }
    ensures { result ≡ series_kept bytes.now at diffuse.now direct.now reflectivity.now }
{
    let a = list_end(bytes, at, word_at(bytes, 23));
    let b = list_end(bytes, a, word_at(bytes, 24));
    let c = list_end(bytes, b, word_at(bytes, 25));
    let d = list_end(bytes, c, word_at(bytes, 26));
    let e = list_end(bytes, d, word_at(bytes, 27));
    let lists = Lists {
        diffuse,
        direct,
        reflectivity,
        summer: &bytes[at..a],
        winter: &bytes[a..b],
        window: &bytes[b..c],
        results: &bytes[c..d],
        totals: &bytes[d..e],
    };
    with_lists(bytes, lists)
}

// Whether a run comes out otherwise than its record says.
pub fn differs(kept: &[u8]) -> bool
    ensures { result ≡ run_differs kept.now }
{
    if kept.len() < 264 {
        return true;
    }
    let a = list_end(kept, 264, word_at(kept, 20));
    let b = list_end(kept, a, word_at(kept, 21));
    let c = list_end(kept, b, word_at(kept, 22));
    !with_series(kept, c, &kept[264..a], &kept[a..b], &kept[b..c])
}
