// The calendar: month and day of month of each day of a year.
#![tactic(auto)]

ghost use Rattle.std.specs.Prelude.{◌≡◌, ◌<◌};
ghost use Rattle.calendar.specs.Calendar.{days_in_year, place_of, date_of};

use crate::table::entry_at;

pub mod table;

// Both count from 1.
#[derive(Clone, Copy)]
pub struct Date {
    pub month: u32,
    pub day: u32,
}

// Where a day, which counts from 0, stands in the table: a common year passes over 29 February. A day is a number and no type of its own:
// which days there are depends on the year, so a type would have to carry it.
fn place_of(leap: bool, day: u32) -> u32
    requires { day < days_in_year leap }
    ensures { result ≡ place_of leap day }
{
    if leap || day < 59 { day } else { day + 1 }
}

pub fn days_in_year(leap: bool) -> u32
    ensures { result ≡ days_in_year leap }
{
    if leap { 366 } else { 365 }
}

// The date of a day of the year, which counts from 0.
pub fn date_of(leap: bool, day: u32) -> Date
    requires { day < days_in_year leap }
    ensures { result ≡ date_of leap day }
{
    let entry = entry_at(place_of(leap, day) as usize);
    Date {
        month: (entry / 100) as u32,
        day: (entry % 100) as u32,
    }
}
