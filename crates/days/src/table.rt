// The table of days: each day's values, worked out once, in a lent list of bytes.
ghost use Rattle.std.specs.Prelude.{◌≡◌, ◌≤◌, ◌<◌, length, ◌+◌};
ghost use Rattle.days.specs.Day.{day_of};
ghost use Rattle.days.specs.Table.{with_day_table, day_at, put_day, HoldsDays};

use crate::{Day, day_of};
use words::{double_at, store_double};

// Stores a day's record; the index counts from 0. It is a number and no type of its own: it is a loop's counter or a quotient, which a type
// would only wrap.
pub fn store_day(days: &mut [u8], index: usize, day: Day)
    requires { index < 366 }
    ensures { days.new ≡ put_day days.old index day }
{
    let k = 3 * index;
    store_double(days, k, day.declination);
    store_double(days, k + 1, day.equation_of_time);
    store_double(days, k + 2, day.extra_terrestrial_radiation);
}

// All 366 days, in either year.
pub fn fill_days(days: &mut [u8])
    requires { 8784 ≤ length days.old }
    ensures { days.new ≡ with_day_table days.old }
{
    for i in 0..366 {
        store_day(days, i as usize, day_of(i));
    }
}

// The day of a record; the index counts from 0.
pub fn day_at(days: &[u8], index: u32) -> Day
    requires { index < 366 }
    ensures { result ≡ day_at days.now index }
{
    let k = 3 * index as usize;
    Day {
        declination: double_at(days, k),
        equation_of_time: double_at(days, k + 1),
        extra_terrestrial_radiation: double_at(days, k + 2),
    }
}

// A filled table.
#[derive(Clone, Copy)]
pub struct DayTable<'a> {
    pub bytes: &'a [u8],
    ghost filled: { HoldsDays bytes.now },
}

impl DayTable<'_> {
    // A day; the index counts from 0.
    pub fn day(self, index: u32) -> Day
        requires { index < 366 }
        ensures { result ≡ day_of (index + 1) }
    {
        day_at(self.bytes, index)
    }
}
