// The sun's angles and the irradiance of one hour.
ghost use Rattle.std.specs.Prelude.{◌≡◌, ◌+◌, ◌/◌, ◌%◌, eqb};
ghost use Rattle.doubles.specs.Functions.{to_radians};
ghost use Rattle.angles.specs.Sine.{sine};
ghost use Rattle.days.specs.Day.{orbit_deviation, solar_declination, equation_of_time_on, extra_terrestrial_radiation_on, day_of};
ghost use Rattle.sun.specs.Hour.{time_shift_of, solar_time, hour_angle_of, solar_altitude, solar_zenith, solar_azimuth, air_mass_of};
ghost use Rattle.irradiance.specs.Table.{table_row};
ghost use Rattle.irradiance.specs.Sky.{direct_beam, clearness, sky_brightness, circumsolar_brightness, horizontal_brightness};
ghost use Rattle.probes.specs.Hours.{hour_with, hour_at, day_answer, day_given, pair};

use angles::SinCos;
use days::Day;

// Degrees. Days count from 0.
#[unsafe(no_mangle)]
pub extern "C" fn probe_init_earth_orbit_deviation(current_day: u32) -> f64
    ensures { result ≡ orbit_deviation (current_day + 1) }
{
    days::init_earth_orbit_deviation(current_day)
}

// Degrees, by degrees.
#[unsafe(no_mangle)]
pub extern "C" fn probe_init_solar_declination(earth_orbit_deviation: f64) -> f64
    ensures { result ≡ solar_declination earth_orbit_deviation }
{
    days::init_solar_declination(earth_orbit_deviation)
}

// Minutes. Days count from 0.
#[unsafe(no_mangle)]
pub extern "C" fn probe_init_equation_of_time(current_day: u32) -> f64
    ensures { result ≡ equation_of_time_on (current_day + 1) }
{
    days::init_equation_of_time(current_day)
}

// W/m², by degrees.
#[unsafe(no_mangle)]
pub extern "C" fn probe_init_extra_terrestrial_radiation(earth_orbit_deviation: f64) -> f64
    ensures { result ≡ extra_terrestrial_radiation_on earth_orbit_deviation }
{
    days::init_extra_terrestrial_radiation(earth_orbit_deviation)
}

// Hours, by hours and degrees.
#[unsafe(no_mangle)]
pub extern "C" fn probe_init_time_shift(timezone: i64, longitude: f64) -> f64
    ensures { result ≡ time_shift_of timezone longitude }
{
    sun::hour::init_time_shift(timezone, longitude)
}

// Hours: the hour of the day counts from 0, and the equation of time is in minutes.
#[unsafe(no_mangle)]
pub extern "C" fn probe_init_solar_time(
    hour_of_day: u32,
    equation_of_time: f64,
    time_shift: f64,
) -> f64
    ensures { result ≡ solar_time hour_of_day equation_of_time time_shift }
{
    sun::hour::init_solar_time(hour_of_day, equation_of_time, time_shift)
}

// Degrees, by hours.
#[unsafe(no_mangle)]
pub extern "C" fn probe_init_solar_hour_angle(solar_time: f64) -> f64
    ensures { result ≡ hour_angle_of solar_time }
{
    sun::hour::init_solar_hour_angle(solar_time)
}

// Degrees, all four.
#[unsafe(no_mangle)]
pub extern "C" fn probe_init_solar_altitude(
    latitude: f64,
    solar_declination: f64,
    solar_hour_angle: f64,
) -> f64
    ensures { result ≡ solar_altitude latitude solar_declination solar_hour_angle }
{
    sun::hour::init_solar_altitude(latitude, solar_declination, solar_hour_angle)
}

// Degrees, both.
#[unsafe(no_mangle)]
pub extern "C" fn probe_init_solar_zenith_angle(solar_altitude: f64) -> f64
    ensures { result ≡ solar_zenith solar_altitude }
{
    sun::hour::init_solar_zenith_angle(solar_altitude)
}

// Degrees, all five.
#[unsafe(no_mangle)]
pub extern "C" fn probe_init_solar_azimuth_angle(
    latitude: f64,
    solar_declination: f64,
    solar_hour_angle: f64,
    solar_altitude: f64,
) -> f64
    ensures { result ≡ solar_azimuth latitude solar_declination solar_hour_angle solar_altitude }
{
    sun::hour::init_solar_azimuth_angle(
        latitude,
        solar_declination,
        solar_hour_angle,
        solar_altitude,
    )
}

// A number, by degrees.
#[unsafe(no_mangle)]
pub extern "C" fn probe_init_air_mass(solar_altitude: f64) -> f64
    ensures { result ≡ air_mass_of solar_altitude }
{
    sun::hour::init_air_mass(solar_altitude)
}

// W/m², by W/m² and the altitude in degrees, as in the Rust: the library's takes its sine.
#[unsafe(no_mangle)]
pub extern "C" fn probe_init_direct_beam_radiation(
    conversion_needed: u64,
    raw_value: f64,
    solar_altitude: f64,
) -> f64
    ensures { result ≡ direct_beam (eqb conversion_needed 1) raw_value (sine (to_radians solar_altitude)) }
{
    let sin_altitude = angles::sin(doubles::to_radians(solar_altitude));
    irradiance::sky::init_direct_beam_radiation(conversion_needed == 1, raw_value, sin_altitude)
}

// A number: diffuse and beam in W/m², altitude in degrees.
#[unsafe(no_mangle)]
pub extern "C" fn probe_init_dimensionless_clearness_parameter(
    diffuse: f64,
    beam: f64,
    solar_altitude: f64,
) -> f64
    ensures { result ≡ clearness diffuse beam solar_altitude }
{
    irradiance::sky::init_dimensionless_clearness_parameter(diffuse, beam, solar_altitude)
}

// A number: both radiations in W/m².
#[unsafe(no_mangle)]
pub extern "C" fn probe_init_dimensionless_sky_brightness_parameter(
    air_mass: f64,
    diffuse: f64,
    extra_terrestrial_radiation: f64,
) -> f64
    ensures { result ≡ sky_brightness air_mass diffuse extra_terrestrial_radiation }
{
    irradiance::sky::init_dimensionless_sky_brightness_parameter(
        air_mass,
        diffuse,
        extra_terrestrial_radiation,
    )
}

// The row of Table 8, 0 to 7.
#[unsafe(no_mangle)]
pub extern "C" fn probe_table_row(clearness_parameter: f64) -> usize
    ensures { result ≡ table_row clearness_parameter }
{
    irradiance::table::table_row(clearness_parameter)
}

// A number: zenith in degrees.
#[unsafe(no_mangle)]
pub extern "C" fn probe_init_f1_circumsolar_brightness_coefficient(
    clearness_parameter: f64,
    delta: f64,
    solar_zenith_angle: f64,
) -> f64
    ensures { result ≡ circumsolar_brightness clearness_parameter delta solar_zenith_angle }
{
    irradiance::sky::init_f1_circumsolar_brightness_coefficient(
        clearness_parameter,
        delta,
        solar_zenith_angle,
    )
}

// A number: zenith in degrees.
#[unsafe(no_mangle)]
pub extern "C" fn probe_init_f2_horizontal_brightness_coefficient(
    clearness_parameter: f64,
    delta: f64,
    solar_zenith_angle: f64,
) -> f64
    ensures { result ≡ horizontal_brightness clearness_parameter delta solar_zenith_angle }
{
    irradiance::sky::init_f2_horizontal_brightness_coefficient(
        clearness_parameter,
        delta,
        solar_zenith_angle,
    )
}

// The sun in degrees and the irradiance in W/m² of one hour, with the breakdown.
#[repr(C)]
#[derive(Clone, Copy)]
pub struct ProbeHour {
    pub altitude: f64,
    pub azimuth: f64,
    pub direct: f64,
    pub diffuse: f64,
    pub total: f64,
    pub sky: f64,
    pub circumsolar: f64,
    pub horizontal: f64,
    pub from_ground: f64,
}

fn hour_with(
    l: SinCos,
    d: SinCos,
    t: SinCos,
    o: SinCos,
    day: Day,
    time_shift: f64,
    hour_of_day: u32,
    conversion_needed: u64,
    diffuse: f64,
    direct: f64,
    reflectivity: f64,
) -> ProbeHour
    ensures { result ≡ hour_with l d t o day time_shift hour_of_day conversion_needed diffuse direct reflectivity }
{
    let hour = sun::hour::hour_by(l, d, day.equation_of_time, time_shift, hour_of_day);
    let incidence = irradiance::surface::incidence_of(l, d, t, o, hour);
    let extra = day.extra_terrestrial_radiation;
    let sky = irradiance::sky::sky_of(conversion_needed == 1, hour, extra, diffuse, direct);
    let parts = irradiance::parts::calculated_direct_diffuse_total_irradiance(
        t,
        incidence,
        sky,
        hour.sin_altitude,
        reflectivity,
    );
    ProbeHour {
        altitude: hour.altitude,
        azimuth: hour.azimuth,
        direct: parts.direct,
        diffuse: parts.diffuse,
        total: parts.total,
        sky: parts.sky,
        circumsolar: parts.circumsolar,
        horizontal: parts.horizontal,
        from_ground: parts.from_ground,
    }
}

// An hour of the year, from 0: the site's and the surface's angles in degrees, the timezone in hours, diffuse and direct in W/m².
#[unsafe(no_mangle)]
pub extern "C" fn probe_hour(
    latitude: f64,
    longitude: f64,
    timezone: i64,
    hour: u32,
    conversion_needed: u64,
    tilt: f64,
    orientation: f64,
    diffuse: f64,
    direct: f64,
    reflectivity: f64,
) -> ProbeHour
    ensures { result ≡ hour_at latitude longitude timezone hour conversion_needed tilt orientation diffuse direct reflectivity }
{
    let day = days::day_of(hour / 24);
    hour_with(
        sun::hour::sin_cos_of_degrees(latitude),
        sun::hour::sin_cos_of_degrees(day.declination),
        sun::hour::sin_cos_of_degrees(tilt),
        sun::hour::sin_cos_of_degrees(orientation::transform_to_180(orientation)),
        day,
        sun::hour::init_time_shift(timezone, longitude),
        hour % 24,
        conversion_needed,
        diffuse,
        direct,
        reflectivity,
    )
}

// Degrees, minutes, W/m².
#[repr(C)]
#[derive(Clone, Copy)]
pub struct ProbeDay {
    pub declination: f64,
    pub equation_of_time: f64,
    pub extra_terrestrial_radiation: f64,
}

// Days count from 0.
#[unsafe(no_mangle)]
pub extern "C" fn probe_day_of(current_day: u32) -> ProbeDay
    ensures { result ≡ day_answer (day_of (current_day + 1)) }
{
    let day = days::day_of(current_day);
    ProbeDay {
        declination: day.declination,
        equation_of_time: day.equation_of_time,
        extra_terrestrial_radiation: day.extra_terrestrial_radiation,
    }
}

// The same hour from what a run keeps of its site, day and surface: the sines and cosines of latitude, declination, tilt and
// orientation, in that order.
#[unsafe(no_mangle)]
pub extern "C" fn probe_hour_by(
    sin_latitude: f64,
    cos_latitude: f64,
    sin_declination: f64,
    cos_declination: f64,
    sin_tilt: f64,
    cos_tilt: f64,
    sin_orientation: f64,
    cos_orientation: f64,
    day: ProbeDay,
    time_shift: f64,
    hour_of_day: u32,
    conversion_needed: u64,
    diffuse: f64,
    direct: f64,
    reflectivity: f64,
) -> ProbeHour
    ensures { result ≡ hour_with
        (pair sin_latitude cos_latitude) (pair sin_declination cos_declination) (pair sin_tilt cos_tilt)
        (pair sin_orientation cos_orientation)
        (day_given day) time_shift hour_of_day conversion_needed diffuse direct reflectivity }
{
    hour_with(
        SinCos {
            sin: sin_latitude,
            cos: cos_latitude,
        },
        SinCos {
            sin: sin_declination,
            cos: cos_declination,
        },
        SinCos {
            sin: sin_tilt,
            cos: cos_tilt,
        },
        SinCos {
            sin: sin_orientation,
            cos: cos_orientation,
        },
        Day {
            declination: day.declination,
            equation_of_time: day.equation_of_time,
            extra_terrestrial_radiation: day.extra_terrestrial_radiation,
        },
        time_shift,
        hour_of_day,
        conversion_needed,
        diffuse,
        direct,
        reflectivity,
    )
}
