// What a run keeps from step to step, so that each thing is worked out once: of the hour that it is in, of the hour's day, its season,
// its day's and its month's totals, and the factor in that hour.
ghost use Rattle.std.specs.Prelude.{◌≡◌, true, ◌≤◌, ◌<◌, ◌/◌, eqb, take};
ghost use Rattle.calendar.specs.Calendar.{days_in_year};
ghost use Rattle.seasons.specs.Seasons.{in_leaf};
ghost use Rattle.seasons.specs.Table.{season_table};
ghost use Rattle.objects.specs.Objects.{placed};
ghost use Rattle.shading.specs.Factor.{shading_factor};
ghost use Rattle.sun.specs.Site.{leap_year_of};
ghost use Rattle.totals.specs.Kept.{kept_totals, HasRecords};
ghost use Rattle.runs.specs.Asked.{job_lent};
ghost use Rattle.runs.specs.Kept.{Ready, day_table, kept_at, come_to};

use crate::job::Job;
use days::table::DayTable;
use objects::answers::Refusal;
use objects::window::WindowShading;
use seasons::leaf::Seasons;
use seasons::table::SeasonTable;
use shading::step::factor_of;
use steps::kept::{Fixed, KeptDay, KeptHour, day_for, kept_hour, read_day};
use sun::hour::Hour;
use totals::KeptTotals;

// What stays the same for all steps of a job: what depends on site and surface alone, the objects at the window and the table of days.
#[derive(Clone, Copy)]
pub struct Setting<'a> {
    pub job: Job<'a>,
    pub seasons: Seasons<'a>,
    pub fixed: Fixed,
    pub objects: WindowShading,
    pub days: DayTable<'a>,
}

impl Setting<'_> {
    // The factor for a sun, by the sectors of a season. Inlined, so that the objects at the window are not copied once more.
    #[inline(always)]
    fn factor_for(&self, sun: Hour, season: &SeasonTable) -> Result<f64, Refusal>
        ensures { result ≡ shading_factor self.now.job.edition self.now.job.surface sun.altitude sun.azimuth
            (take season.now.count season.now.places) (placed self.now.objects) }
    {
        factor_of(
            self.job.edition,
            self.job.surface,
            sun.altitude,
            sun.azimuth,
            season.sectors(),
            self.objects.objects(),
        )
    }
}

// Where a run is. The sectors are read into a table where the season changes, a day is read from the table of days, and the totals of
// a day and its month are stored where the day changes and at the end.
#[derive(Clone, Copy)]
pub struct Kept {
    pub hour: KeptHour,
    pub day: KeptDay,
    pub season: SeasonTable,
    pub totals: KeptTotals,
    pub factor: Result<f64, Refusal>,
}

impl Kept {
    // In the first hour of the year, before the first step.
    pub fn first(setting: &Setting, totals: &[u8]) -> Kept
        requires { Ready setting.now }
        ensures { result ≡ kept_at (job_lent setting.now.job) (kept_totals (leap_year_of setting.now.job.site) 0 totals.now) 0 }
    {
        let job = setting.job;
        let site = job.site;
        let day = read_day(setting.days, 0);
        let hour = kept_hour(site, job.surface, setting.fixed, day, 0);
        let season = setting.seasons.table(0);
        Kept {
            hour,
            day,
            season,
            totals: KeptTotals::read(totals, site.leap_year == 1, 0),
            factor: setting.factor_for(hour.sun, &season),
        }
    }

    // Reads the sectors for a day. A function of its own, since a function sets all its locals to zero when it begins.
    fn read_season(&mut self, seasons: Seasons, day: u32)
        ensures { self.new ≡ record self.old {
          season = season_table (in_leaf seasons.entry.first seasons.entry.last day)
              seasons.entry.summer.bytes.now seasons.entry.winter.bytes.now;
        } }
    {
        self.season = seasons.table(day);
    }

    // Goes on to another hour of the year.
    pub fn enter(&mut self, setting: &Setting, totals: &mut [u8], hour: u32)
        requires ready { Ready setting.now }
        requires day_bound { hour / 24 < days_in_year (leap_year_of setting.now.job.site) }
        requires kept_value { self.old ≡ kept_at (job_lent setting.now.job) self.old.totals self.old.hour.hour }
        requires has_records { HasRecords totals.old self.old.totals.parts }
        ensures kept_after { self.new ≡ kept_at (job_lent setting.now.job) self.new.totals hour }
        ensures totals_after { (totals.new, self.new.totals) ≡ come_to (leap_year_of setting.now.job.site)
            (eqb (hour / 24) (self.old.hour.hour / 24)) (hour / 24) totals.old self.old.totals }
    {
        let job = &setting.job;
        let day = hour / 24;
        if day != self.day.index {
            self.totals.store(totals);
            self.totals = KeptTotals::read(totals, job.site.leap_year == 1, day);
            if setting.seasons.in_leaf(day as u64) != self.season.summer {
                self.read_season(setting.seasons, day);
            }
        }
        self.day = day_for(setting.days, day, self.day);
        self.hour = kept_hour(job.site, job.surface, setting.fixed, self.day, hour);
        self.factor = setting.factor_for(self.hour.sun, &self.season);
    }
}
