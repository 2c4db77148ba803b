// Orientations: from north, 0 to 360 clockwise, as a surface or a sector has them, and from south, eastwards positive, as the sun's
// azimuth is given; and the one shift of an angle by 360. In degrees.
#![tactic(auto)]

ghost use Rattle.std.specs.Prelude.{◌≡◌};
ghost use Rattle.orientation.specs.Orientation.{orientation180, wrapped_once};

// From north to south: 0 to 360 becomes 180 to −180, both ends included, so that north is either.
pub fn transform_to_180(orientation: f64) -> f64
    ensures { result ≡ orientation180 orientation }
{
    180.0 - orientation
}

// Shifted by 360 once, strictly beyond ±180. From −540 to 540 that gives −180 to 180, both ends included; what is beyond ±540 stays
// beyond ±180, and NaN stays.
pub fn wrap_once(angle: f64) -> f64
    ensures { result ≡ wrapped_once angle }
{
    if angle > 180.0 {
        angle - 360.0
    } else if angle < -180.0 {
        angle + 360.0
    } else {
        angle
    }
}
