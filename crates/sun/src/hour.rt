// What depends on the hour. What a later formula needs again, as a sine, is worked out once and handed on.
// Angles are in degrees and times in hours, where nothing else is said.
ghost use Rattle.std.specs.Prelude.{◌≡◌};
ghost use Rattle.doubles.specs.Arithmetic.{whole};
ghost use Rattle.arcsines.specs.Arcsine.{arcsine};
ghost use Rattle.sun.specs.Hour.{sin_cos_of, time_shift_of, solar_time, hour_angle_of, altitude_sine, is_night, cut_altitude, solar_altitude, solar_zenith};
ghost use Rattle.sun.specs.Hour.{azimuth_branch, azimuth_from, solar_azimuth, air_mass_by, air_mass_of};
ghost use Rattle.sun.specs.HourParts.{altitude_terms, hour_angles_by, hour_from, hour_by};

use angles::SinCos;
use orientation::wrap_once;

// The sine and the cosine of an angle in degrees.
pub fn sin_cos_of_degrees(degrees: f64) -> SinCos
    ensures { result ≡ sin_cos_of degrees }
{
    angles::sin_cos(doubles::to_radians(degrees))
}

// In hours; longitude in degrees, eastwards positive, and timezone in hours.
pub fn init_time_shift(timezone: i64, longitude: f64) -> f64
    ensures { result ≡ time_shift_of timezone longitude }
{
    std::num::nearest_i64_to_f64(timezone) - longitude / 15.0
}

// In hours, by the hour of the day, which counts from 0, the equation of time in minutes and the time shift in hours.
pub fn init_solar_time(hour_of_day: u32, equation_of_time: f64, time_shift: f64) -> f64
    ensures { result ≡ solar_time hour_of_day equation_of_time time_shift }
{
    (hour_of_day as u64 + 1) as f64 - equation_of_time / 60.0 - time_shift
}

// In degrees, in the middle of the hour.
pub fn init_solar_hour_angle(solar_time: f64) -> f64
    ensures { result ≡ hour_angle_of solar_time }
{
    wrap_once(15.0 * (12.5 - solar_time))
}

// The sine of the sun's altitude, before the cut at the horizon.
pub fn altitude_sine(latitude: SinCos, declination: SinCos, cos_hour_angle: f64) -> f64
    ensures { result ≡ altitude_sine latitude declination cos_hour_angle }
{
    declination.sin * latitude.sin + declination.cos * latitude.cos * cos_hour_angle
}

// Whether an altitude counts as 0.
fn is_night(altitude: f64) -> bool
    ensures { result ≡ is_night altitude }
{
    altitude < 0.0001
}

// The sun above the horizon in degrees, 0 at night.
pub fn init_solar_altitude(latitude: f64, solar_declination: f64, solar_hour_angle: f64) -> f64
    ensures { result ≡ solar_altitude latitude solar_declination solar_hour_angle }
{
    let sine = altitude_sine(
        sin_cos_of_degrees(latitude),
        sin_cos_of_degrees(solar_declination),
        angles::cos(doubles::to_radians(solar_hour_angle)),
    );
    let altitude = doubles::to_degrees(arcsines::asin(sine));
    if is_night(altitude) { 0.0 } else { altitude }
}

// The angle between the sun and the point overhead, in degrees.
pub fn init_solar_zenith_angle(solar_altitude: f64) -> f64
    ensures { result ≡ solar_zenith solar_altitude }
{
    90.0 - solar_altitude
}

fn azimuth_branch(sin_aux1: f64, cos_aux1: f64, aux2: f64) -> f64
    ensures { result ≡ azimuth_branch sin_aux1 cos_aux1 aux2 }
{
    if (sin_aux1 >= 0.0) & (cos_aux1 > 0.0) {
        if aux2 > 180.0 {
            aux2 - 180.0
        } else {
            180.0 - aux2
        }
    } else if cos_aux1 < 0.0 {
        aux2
    } else {
        -(180.0 + aux2)
    }
}

// By latitude l, declination d and 180 less the hour angle, w. The arcsine is that of d.cos * w.sin.
fn azimuth_from(l: SinCos, d: SinCos, w: SinCos, arc_sine: f64, denominator: f64) -> f64
    ensures { result ≡ azimuth_from l d w arc_sine denominator }
{
    let sin_numerator = d.cos * w.sin;
    let cos_numerator = l.cos * d.sin + l.sin * d.cos * w.cos;
    azimuth_branch(
        sin_numerator / denominator,
        cos_numerator / denominator,
        doubles::to_degrees(arc_sine / denominator),
    )
}

// From south, eastwards positive, in degrees.
pub fn init_solar_azimuth_angle(
    latitude: f64,
    solar_declination: f64,
    solar_hour_angle: f64,
    solar_altitude: f64,
) -> f64
    ensures { result ≡ solar_azimuth latitude solar_declination solar_hour_angle solar_altitude }
{
    let d = sin_cos_of_degrees(solar_declination);
    let w = sin_cos_of_degrees(180.0 - solar_hour_angle);
    let sin_altitude = angles::sin(doubles::to_radians(solar_altitude));
    azimuth_from(
        sin_cos_of_degrees(latitude),
        d,
        w,
        arcsines::asin(d.cos * w.sin),
        angles::cos(arcsines::asin(sin_altitude)),
    )
}

fn air_mass_by(altitude: f64, sin_altitude: f64) -> f64
    ensures { result ≡ air_mass_by altitude sin_altitude }
{
    if altitude >= 10.0 {
        1.0 / sin_altitude
    } else {
        1.0 / (sin_altitude + 0.15 * powers::pow_minus_1_253(altitude + 3.885))
    }
}

// How far the sun's beam goes through the air, in thicknesses of the atmosphere.
pub fn init_air_mass(solar_altitude: f64) -> f64
    ensures { result ≡ air_mass_of solar_altitude }
{
    air_mass_by(
        solar_altitude,
        angles::sin(doubles::to_radians(solar_altitude)),
    )
}

// What depends on the sun's altitude alone.
#[derive(Clone, Copy)]
struct AltitudeTerms {
    altitude: f64,
    sin: f64,
    azimuth_denominator: f64,
    zenith: f64,
    cos_zenith: f64,
    air_mass: f64,
}

// Those of altitude 0, so that the hours of night, about half of a year's, need not work them out.
fn terms_at_night() -> AltitudeTerms
    ensures { result ≡ altitude_terms (whole 0) }
{
    AltitudeTerms {
        altitude: 0.0,
        sin: 0.0,
        azimuth_denominator: 1.0,
        zenith: 90.0,
        cos_zenith: 6.12323399538461e-17,
        air_mass: 36.51032450028871,
    }
}

// With the arcsine of the azimuth's numerator.
#[derive(Clone, Copy)]
struct TermsAndArcsine {
    terms: AltitudeTerms,
    azimuth_arcsine: f64,
}

fn terms_by_day(altitude: f64, numerator: f64) -> TermsAndArcsine
    ensures { (result.terms ≡ altitude_terms altitude) × (result.azimuth_arcsine ≡ arcsine numerator) }
{
    let sin = angles::sin(doubles::to_radians(altitude));
    let arcsines = arcsines::asin_both(numerator, sin);
    let zenith = init_solar_zenith_angle(altitude);
    TermsAndArcsine {
        terms: AltitudeTerms {
            altitude,
            sin,
            azimuth_denominator: angles::cos(arcsines.second),
            zenith,
            cos_zenith: angles::cos(doubles::to_radians(zenith)),
            air_mass: air_mass_by(altitude, sin),
        },
        azimuth_arcsine: arcsines.first,
    }
}

// By day the two arcsines that the azimuth needs go at once; at night it needs but one.
fn altitude_terms(altitude: f64, numerator: f64) -> TermsAndArcsine
    ensures { (result.terms ≡ altitude_terms (cut_altitude altitude)) × (result.azimuth_arcsine ≡ arcsine numerator) }
{
    if is_night(altitude) {
        TermsAndArcsine {
            terms: terms_at_night(),
            azimuth_arcsine: arcsines::asin(numerator),
        }
    } else {
        terms_by_day(altitude, numerator)
    }
}

// The sun in one hour: its angles, and what later formulas reuse of them.
#[derive(Clone, Copy)]
pub struct Hour {
    pub hour_angle: SinCos,
    pub altitude: f64,
    pub azimuth: f64,
    pub sin_altitude: f64,
    pub zenith: f64,
    pub cos_zenith: f64,
    pub air_mass: f64,
}

// The hour angle and its supplement, 180 degrees less it.
#[derive(Clone, Copy)]
pub struct HourAngles {
    pub hour_angle: SinCos,
    pub supplement: SinCos,
}

// By the equation of time in minutes, the time shift in hours and the hour of the day, which counts from 0.
pub fn hour_angles_by(equation_of_time: f64, time_shift: f64, hour_of_day: u32) -> HourAngles
    ensures { result ≡ hour_angles_by equation_of_time time_shift hour_of_day }
{
    let angle = init_solar_hour_angle(init_solar_time(hour_of_day, equation_of_time, time_shift));
    let hour_angle = sin_cos_of_degrees(angle);
    let supplement = sin_cos_of_degrees(180.0 - angle);
    HourAngles {
        hour_angle,
        supplement,
    }
}

// The rest of the hour, by the arcsine of the altitude's sine, in radians.
pub fn hour_from(
    latitude: SinCos,
    declination: SinCos,
    hour_angles: HourAngles,
    altitude_arcsine: f64,
) -> Hour
    ensures { result ≡ hour_from latitude declination hour_angles altitude_arcsine }
{
    let supplement = hour_angles.supplement;
    let hour_angle = hour_angles.hour_angle;
    let seen = altitude_terms(
        doubles::to_degrees(altitude_arcsine),
        declination.cos * supplement.sin,
    );
    let terms = seen.terms;
    let azimuth = azimuth_from(
        latitude,
        declination,
        supplement,
        seen.azimuth_arcsine,
        terms.azimuth_denominator,
    );
    Hour {
        hour_angle,
        altitude: terms.altitude,
        azimuth,
        sin_altitude: terms.sin,
        zenith: terms.zenith,
        cos_zenith: terms.cos_zenith,
        air_mass: terms.air_mass,
    }
}

// The sines and cosines of latitude and declination are the caller's to keep: they change with the site and the day alone.
pub fn hour_by(
    latitude: SinCos,
    declination: SinCos,
    equation_of_time: f64,
    time_shift: f64,
    hour_of_day: u32,
) -> Hour
    ensures { result ≡ hour_by latitude declination equation_of_time time_shift hour_of_day }
{
    let hour_angles = hour_angles_by(equation_of_time, time_shift, hour_of_day);
    let hour_angle = hour_angles.hour_angle;
    let sine = altitude_sine(latitude, declination, hour_angle.cos);
    hour_from(latitude, declination, hour_angles, arcsines::asin(sine))
}
