// The state of the sky: the Perez model's clearness, brightness and coefficients F1 and F2.
ghost use Rattle.std.specs.Prelude.{◌≡◌};
ghost use Rattle.irradiance.specs.Sky.{direct_beam, altitude_term, clearness, sky_brightness, brightness_of};
ghost use Rattle.irradiance.specs.Sky.{brightness_in, cut_brightness, circumsolar_brightness, horizontal_brightness, sky_of};

use crate::table::coefficients_at;
use doubles::PI;
use sun::hour::Hour;

// The beam at normal incidence, in W/m², by the series' value in W/m² and the sine of the sun's altitude.
pub fn init_direct_beam_radiation(
    direct_beam_conversion_needed: bool,
    raw_value: f64,
    sin_altitude: f64,
) -> f64
    ensures { result ≡ direct_beam direct_beam_conversion_needed raw_value sin_altitude }
{
    if direct_beam_conversion_needed && sin_altitude > 0.0 {
        raw_value / sin_altitude
    } else {
        raw_value
    }
}

fn altitude_term(solar_altitude: f64) -> f64
    ensures { result ≡ altitude_term solar_altitude }
{
    1.014 * doubles::cube(PI / 180.0 * solar_altitude)
}

// The clearness, a number: diffuse and beam in W/m², altitude in degrees.
pub fn init_dimensionless_clearness_parameter(
    diffuse_horizontal_radiation: f64,
    direct_beam_radiation: f64,
    solar_altitude: f64,
) -> f64
    ensures { result ≡ clearness diffuse_horizontal_radiation direct_beam_radiation solar_altitude }
{
    if diffuse_horizontal_radiation == 0.0 {
        return 999.0;
    }
    let term = altitude_term(solar_altitude);
    ((diffuse_horizontal_radiation + direct_beam_radiation) / diffuse_horizontal_radiation + term)
        / (1.0 + term)
}

// The sky brightness delta, a number: diffuse and extra-terrestrial radiation in W/m².
pub fn init_dimensionless_sky_brightness_parameter(
    air_mass: f64,
    diffuse_horizontal_radiation: f64,
    extra_terrestrial_radiation: f64,
) -> f64
    ensures { result ≡ sky_brightness air_mass diffuse_horizontal_radiation extra_terrestrial_radiation }
{
    air_mass * diffuse_horizontal_radiation / extra_terrestrial_radiation
}

// Three of a row's coefficients put together.
fn brightness_of(a: f64, b: f64, c: f64, delta: f64, solar_zenith_angle: f64) -> f64
    ensures { result ≡ brightness_of a b c delta solar_zenith_angle }
{
    a + b * delta + c * (PI * solar_zenith_angle / 180.0)
}

fn circumsolar_brightness(row: [f64; 6], delta: f64, solar_zenith_angle: f64) -> f64
    ensures { result ≡ cut_brightness (brightness_in row 0 delta solar_zenith_angle) }
{
    let f1 = brightness_of(row[0], row[1], row[2], delta, solar_zenith_angle);
    if f1 < 0.0 { 0.0 } else { f1 }
}

fn horizontal_brightness(row: [f64; 6], delta: f64, solar_zenith_angle: f64) -> f64
    ensures { result ≡ brightness_in row 3 delta solar_zenith_angle }
{
    brightness_of(row[3], row[4], row[5], delta, solar_zenith_angle)
}

// F1, a number, at least 0: zenith in degrees.
pub fn init_f1_circumsolar_brightness_coefficient(
    clearness_parameter: f64,
    delta: f64,
    solar_zenith_angle: f64,
) -> f64
    ensures { result ≡ circumsolar_brightness clearness_parameter delta solar_zenith_angle }
{
    let row = coefficients_at(clearness_parameter);
    circumsolar_brightness(row, delta, solar_zenith_angle)
}

// F2, a number that may be negative: zenith in degrees.
pub fn init_f2_horizontal_brightness_coefficient(
    clearness_parameter: f64,
    delta: f64,
    solar_zenith_angle: f64,
) -> f64
    ensures { result ≡ horizontal_brightness clearness_parameter delta solar_zenith_angle }
{
    let row = coefficients_at(clearness_parameter);
    horizontal_brightness(row, delta, solar_zenith_angle)
}

// The sky of one step: the diffuse value and the beam after conversion in W/m², F1 and F2.
#[derive(Clone, Copy)]
pub struct Sky {
    pub diffuse: f64,
    pub beam: f64,
    pub f1: f64,
    pub f2: f64,
}

// By the sun of the hour, the day's extra-terrestrial radiation and the series' values, in W/m².
pub fn sky_of(
    direct_beam_conversion_needed: bool,
    hour: Hour,
    extra_terrestrial_radiation: f64,
    diffuse: f64,
    direct: f64,
) -> Sky
    ensures { result ≡ sky_of direct_beam_conversion_needed hour extra_terrestrial_radiation diffuse direct }
{
    let beam = init_direct_beam_radiation(direct_beam_conversion_needed, direct, hour.sin_altitude);
    let e = init_dimensionless_clearness_parameter(diffuse, beam, hour.altitude);
    let delta = init_dimensionless_sky_brightness_parameter(
        hour.air_mass,
        diffuse,
        extra_terrestrial_radiation,
    );
    // One search of Table 8 for both F1 and F2.
    let row = coefficients_at(e);
    Sky {
        diffuse,
        beam,
        f1: circumsolar_brightness(row, delta, hour.zenith),
        f2: horizontal_brightness(row, delta, hour.zenith),
    }
}
