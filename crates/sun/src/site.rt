// Where the surface stands, how its weather series are to be read, and when trees are in leaf there; and the checks of it (refusals 1
// and 15).
ghost use Rattle.std.specs.Prelude.{◌≡◌};
ghost use Rattle.sun.specs.Site.{site_fine, leaf_days_fine, hours_in_year};

// Latitude and longitude in degrees, north and east positive; timezone and series step in hours; days count from 0.
// leap_year and direct_beam_conversion are 0 or 1, and numbers as in the C struct, since a job with another one is refused.
#[derive(Clone, Copy)]
pub struct Site {
    pub latitude: f64,
    pub longitude: f64,
    pub timezone: i64,
    pub start_day: u64,
    pub time_series_step: f64,
    pub leap_year: u64,
    pub direct_beam_conversion: u64,
    pub first_leaf_day: u64,
    pub last_leaf_day: u64,
}

// Whether every field but the leaf days is in its range.
pub fn site_fine(site: Site) -> bool
    ensures { result ≡ site_fine site }
{
    let latitude = (-90.0 <= site.latitude) & (site.latitude <= 90.0);
    let longitude = (-180.0 <= site.longitude) & (site.longitude <= 180.0);
    let timezone = (-13 <= site.timezone) & (site.timezone <= 14);
    let start_day = site.start_day <= 365;
    let step = (0.25 <= site.time_series_step) & (site.time_series_step <= 24.0);
    let leap_year = site.leap_year <= 1;
    let conversion = site.direct_beam_conversion <= 1;
    latitude & longitude & timezone & start_day & step & leap_year & conversion
}

// Whether both leaf days are, in either year.
pub fn leaf_days_fine(site: Site) -> bool
    ensures { result ≡ leaf_days_fine site }
{
    (site.first_leaf_day <= 365) & (site.last_leaf_day <= 365)
}

// 8784 hours in a leap year, else 8760.
pub fn hours_in_year(site: Site) -> u32
    ensures { result ≡ hours_in_year site }
{
    if site.leap_year == 1 { 8784 } else { 8760 }
}
