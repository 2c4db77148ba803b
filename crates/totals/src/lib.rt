// Day and month totals: records in a lent list of bytes. Those of the day and the month that a run is in are kept by value.
#![tactic(auto)]

ghost use Rattle.std.specs.Prelude.{◌≡◌, ◌+◌, ◌*◌, ◌≤◌, ◌<◌, length};
ghost use Rattle.calendar.specs.Calendar.{days_in_year};
ghost use Rattle.jobs.specs.Totals.{with_step, totals_count, totals_at, put_totals};
ghost use Rattle.totals.specs.Kept.{emptied, parts_of, kept_totals, with_row_added, HasRecords, put_kept};

use calendar::{date_of, days_in_year};
use doubles::float_max;
use jobs::answers::{Row, Totals};
use steps::rows::with_row;
use words::{double_at, store_double_within, store_word_within, word_at};

// One step more, which is so many hours long. Of equal totals `float_max` takes the second, the latest, and it drops a NaN.
pub fn with_step(step: f64, totals: Totals, row: Row) -> Totals
    requires { totals.count < 35137 }
    ensures { result ≡ with_step step totals row }
{
    Totals {
        count: totals.count + 1,
        largest: float_max(totals.largest, row.total),
        sum: with_row(step, totals.sum, row),
    }
}

// The k-th record.
pub fn totals_at(totals: &[u8], k: usize) -> Totals
    requires { k < 378 }
    ensures { result ≡ totals_at totals.now k }
{
    let word = 3 * k;
    Totals {
        count: word_at(totals, word),
        largest: double_at(totals, word + 1),
        sum: double_at(totals, word + 2),
    }
}

// Stores the k-th record of a list that has it.
pub fn store_totals(totals: &mut [u8], k: usize, new: Totals)
    requires k_bound { k < 378 }
    requires k_in_bounds { 24 * k + 24 ≤ length totals.old }
    ensures { totals.new ≡ put_totals totals.old k new }
{
    let word = 3 * k;
    store_word_within(totals, word, new.count);
    store_double_within(totals, word + 1, new.largest);
    store_double_within(totals, word + 2, new.sum);
}

// All records of the year, as they are before the first step.
pub fn empty_totals(totals: &mut [u8], leap: bool)
    requires { 24 * totals_count leap ≤ length totals.old }
    ensures { totals.new ≡ emptied leap totals.old }
{
    let count = days_in_year(leap) + 12;
    let none = Totals {
        count: 0,
        largest: 0.0 / 0.0,
        sum: 0.0,
    };
    for k in 0..count {
        store_totals(totals, k as usize, none);
    }
}

// Where the day and the month of a step have their records.
#[derive(Clone, Copy)]
pub struct Parts {
    pub day: u32,
    pub month: u32,
}

pub fn parts_of(leap: bool, day: u32) -> Parts
    requires { day < days_in_year leap }
    ensures { result ≡ parts_of leap day }
{
    Parts {
        day,
        month: days_in_year(leap) + date_of(leap, day).month - 1,
    }
}

// The totals of the day and the month that a run is in. They are kept by value from step to step and stored where the day changes and
// at the end, so that calendar and list are looked at once a day.
#[derive(Clone, Copy)]
pub struct KeptTotals {
    pub parts: Parts,
    pub day: Totals,
    pub month: Totals,
}

impl KeptTotals {
    // Those of a day and its month, as they stand in the list.
    pub fn read(totals: &[u8], leap: bool, day: u32) -> KeptTotals
        requires { day < days_in_year leap }
        ensures { result ≡ kept_totals leap day totals.now }
    {
        let parts = parts_of(leap, day);
        KeptTotals {
            parts,
            day: totals_at(totals, parts.day as usize),
            month: totals_at(totals, parts.month as usize),
        }
    }

    // Adds a step's row to the totals of its day and to those of its month.
    pub fn add_row(&mut self, step: f64, row: Row)
        requires day_bound { self.old.day.count < 35137 }
        requires month_bound { self.old.month.count < 35137 }
        ensures { self.new ≡ with_row_added step row self.old }
    {
        self.day = with_step(step, self.day, row);
        self.month = with_step(step, self.month, row);
    }

    // Stores both records.
    pub fn store(self, totals: &mut [u8])
        requires { HasRecords totals.old self.parts }
        ensures { totals.new ≡ put_kept totals.old self }
    {
        store_totals(totals, self.parts.day as usize, self.day);
        store_totals(totals, self.parts.month as usize, self.month);
    }
}
