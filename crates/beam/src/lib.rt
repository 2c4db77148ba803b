// The beam test, after the Rust's function of this name. In degrees.
#![tactic(auto)]

ghost use Rattle.std.specs.Prelude.{◌≡◌};
ghost use Rattle.beam.specs.Beam.{within90, outside_solar_beam};

use orientation::{transform_to_180, wrap_once};

fn within_90(x: f64) -> bool
    ensures { result ≡ within90 x }
{
    (-90.0 <= x) & (x <= 90.0)
}

// Whether the surface is outside the solar beam, by four angles in degrees. NaN counts as outside.
pub fn outside_solar_beam(tilt: f64, orientation: f64, altitude: f64, azimuth: f64) -> bool
    ensures { result ≡ outside_solar_beam tilt orientation altitude azimuth }
{
    let azimuth_within = within_90(wrap_once(transform_to_180(orientation) - azimuth));
    let altitude_within = within_90(tilt - altitude);
    !azimuth_within | !altitude_within
}
