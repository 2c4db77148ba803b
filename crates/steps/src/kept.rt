// What a run keeps from step to step, so that each thing is worked out once: what depends on the site and the surface alone, on the day,
// and on the hour.
ghost use Rattle.std.specs.Prelude.{◌≡◌, ◌+◌, ◌/◌, ◌<◌};
ghost use Rattle.days.specs.Day.{day_of};
ghost use Rattle.steps.specs.Kept.{fixed_of, kept_day, kept_hour, irradiance_kept};

use angles::SinCos;
use days::Day;
use days::table::DayTable;
use irradiance::parts::Irradiance;
use irradiance::surface::Incidence;
use objects::surface::Surface;
use sun::hour::{Hour, sin_cos_of_degrees};
use sun::site::Site;
use weather::Reading;

// Of site and surface: the sines and cosines of three angles, and the time shift in hours.
#[derive(Clone, Copy)]
pub struct Fixed {
    pub latitude: SinCos,
    pub tilt: SinCos,
    pub orientation: SinCos,
    pub time_shift: f64,
}

// What stays the same for a whole run.
pub fn fixed_of(site: Site, surface: Surface) -> Fixed
    ensures { result ≡ fixed_of site surface }
{
    let latitude = sin_cos_of_degrees(site.latitude);
    let tilt = sin_cos_of_degrees(surface.tilt);
    let orientation = sin_cos_of_degrees(orientation::transform_to_180(surface.orientation));
    let time_shift = sun::hour::init_time_shift(site.timezone, site.longitude);
    Fixed {
        latitude,
        tilt,
        orientation,
        time_shift,
    }
}

// A day of the year, from 0.
#[derive(Clone, Copy)]
pub struct KeptDay {
    pub index: u32,
    pub values: Day,
    pub declination: SinCos,
}

// What stays the same for a day, by its values.
fn day_by(index: u32, values: Day) -> KeptDay
    requires { values ≡ day_of (index + 1) }
    ensures { result ≡ kept_day index }
{
    let declination = sin_cos_of_degrees(values.declination);
    KeptDay {
        index,
        values,
        declination,
    }
}

// A day whose values are worked out.
pub fn kept_day(index: u32) -> KeptDay
    ensures { result ≡ kept_day index }
{
    day_by(index, days::day_of(index))
}

// A day whose values are read from the table.
pub fn read_day(days: DayTable, index: u32) -> KeptDay
    requires { index < 366 }
    ensures { result ≡ kept_day index }
{
    day_by(index, days.day(index))
}

// The same day where it is still that day.
pub fn day_for(days: DayTable, index: u32, kept: KeptDay) -> KeptDay
    requires index_bound { index < 366 }
    requires kept_value { kept ≡ kept_day kept.index }
    ensures { result ≡ kept_day index }
{
    if index == kept.index {
        return kept;
    }
    read_day(days, index)
}

// An hour of the year, from 0.
#[derive(Clone, Copy)]
pub struct KeptHour {
    pub hour: u32,
    pub extra_terrestrial_radiation: f64,
    pub sun: Hour,
    pub incidence: Incidence,
}

// Arcsines that do not wait for each other are worked out two at a time: those of the altitude and the incidence here.
pub fn kept_hour(site: Site, surface: Surface, fixed: Fixed, day: KeptDay, hour: u32) -> KeptHour
    requires fixed_value { fixed ≡ fixed_of site surface }
    requires day_value { day ≡ kept_day (hour / 24) }
    ensures { result ≡ kept_hour site surface hour }
{
    let l = fixed.latitude;
    let t = fixed.tilt;
    let o = fixed.orientation;
    let d = day.declination;
    let equation_of_time = day.values.equation_of_time;
    let hour_angles = sun::hour::hour_angles_by(equation_of_time, fixed.time_shift, hour % 24);
    let w = hour_angles.hour_angle;
    let sine = sun::hour::altitude_sine(l, d, w.cos);
    let argument = irradiance::surface::incidence_argument(l, d, t, o, w);
    let arcsines = arcsines::asin_both(sine, argument);
    let cos_incidence = irradiance::surface::incidence_cosine(arcsines.second);
    let sun = sun::hour::hour_from(l, d, hour_angles, arcsines.first);
    let incidence = irradiance::surface::incidence_by(cos_incidence, sun.cos_zenith);
    KeptHour {
        hour,
        extra_terrestrial_radiation: day.values.extra_terrestrial_radiation,
        sun,
        incidence,
    }
}

// The irradiance at a step in W/m², by what is kept and the series' values.
pub fn irradiance_kept(
    fixed: Fixed,
    conversion: u64,
    kept: KeptHour,
    reading: Reading,
) -> Irradiance
    ensures { result ≡ irradiance_kept fixed conversion kept reading }
{
    let tilt = fixed.tilt;
    let sun = kept.sun;
    let incidence = kept.incidence;
    let sky = irradiance::sky::sky_of(
        conversion == 1,
        sun,
        kept.extra_terrestrial_radiation,
        reading.diffuse,
        reading.direct,
    );
    irradiance::parts::calculated_direct_diffuse_total_irradiance(
        tilt,
        incidence,
        sky,
        sun.sin_altitude,
        reading.reflectivity,
    )
}
