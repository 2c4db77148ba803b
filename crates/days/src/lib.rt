// What depends on the day alone. A day counts from 0, as in the Rust; the day number of the formulas is one more.
#![tactic(auto)]

ghost use Rattle.std.specs.Prelude.{◌≡◌, ◌+◌, ◌≤◌};
ghost use Rattle.days.specs.Day.{orbit_deviation, solar_declination, days_from, equation_of_time_on, extra_terrestrial_radiation_on, day_of};

pub mod table;

// How far the earth has gone on its orbit, in degrees.
pub fn init_earth_orbit_deviation(current_day: u32) -> f64
    ensures { result ≡ orbit_deviation (current_day + 1) }
{
    let nday = current_day as u64 + 1;
    360.0 / 365.0 * nday as f64
}

// The sun's declination in degrees, by the orbit deviation in degrees.
pub fn init_solar_declination(earth_orbit_deviation: f64) -> f64
    ensures { result ≡ solar_declination earth_orbit_deviation }
{
    let b = doubles::to_radians(earth_orbit_deviation);
    let once = angles::sin_cos(b);
    let twice = angles::sin_cos(2.0 * b);
    let thrice = angles::sin_cos(3.0 * b);
    0.33281 - 22.984 * once.cos - 0.3499 * twice.cos - 0.1398 * thrice.cos
        + 3.7872 * once.sin
        + 0.03205 * twice.sin
        + 0.07187 * thrice.sin
}

// n − k as a double.
fn days_from(k: u64, n: u64) -> f64
    requires { (k ≤ 366) × (n ≤ 366) }
    ensures { result ≡ days_from k n }
{
    if k <= n {
        (n - k) as f64
    } else {
        -((k - n) as f64)
    }
}

// In minutes. NaN after the 366th day.
pub fn init_equation_of_time(current_day: u32) -> f64
    ensures { result ≡ equation_of_time_on (current_day + 1) }
{
    let nday = current_day as u64 + 1;
    match nday {
        0..=20 => 2.6 + 0.44 * nday as f64,
        21..=135 => 5.2 + 9.0 * angles::cos(days_from(43, nday) * 0.0357),
        136..=240 => 1.4 - 5.0 * angles::cos(days_from(135, nday) * 0.0449),
        241..=335 => -6.3 - 10.0 * angles::cos(days_from(306, nday) * 0.036),
        336..=366 => 0.45 * days_from(359, nday),
        _ => f64::NAN,
    }
}

// In W/m², by the orbit deviation in degrees.
pub fn init_extra_terrestrial_radiation(earth_orbit_deviation: f64) -> f64
    ensures { result ≡ extra_terrestrial_radiation_on earth_orbit_deviation }
{
    1367.0 * (1.0 + 0.033 * angles::cos(doubles::to_radians(earth_orbit_deviation)))
}

// Declination in degrees, equation of time in minutes, extra-terrestrial radiation in W/m².
#[derive(Clone, Copy)]
pub struct Day {
    pub declination: f64,
    pub equation_of_time: f64,
    pub extra_terrestrial_radiation: f64,
}

// All three of a day.
pub fn day_of(current_day: u32) -> Day
    ensures { result ≡ day_of (current_day + 1) }
{
    let deviation = init_earth_orbit_deviation(current_day);
    Day {
        declination: init_solar_declination(deviation),
        equation_of_time: init_equation_of_time(current_day),
        extra_terrestrial_radiation: init_extra_terrestrial_radiation(deviation),
    }
}
