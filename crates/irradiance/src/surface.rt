// The sun on an inclined surface: incidence, and the ratio of the solid angles a and b.
ghost use Rattle.std.specs.Prelude.{◌≡◌};
ghost use Rattle.irradiance.specs.Surface.{incidence_argument, incidence_cosine, a_over_b_of, incidence_by, incidence_of};

use angles::SinCos;
use sun::hour::Hour;

// By the sines and cosines of latitude, declination, tilt, orientation and hour angle: the sum whose arccosine is the incidence.
pub fn incidence_argument(l: SinCos, d: SinCos, t: SinCos, o: SinCos, w: SinCos) -> f64
    ensures { result ≡ incidence_argument l d t o w }
{
    d.sin * l.sin * t.cos - d.sin * l.cos * t.sin * o.cos
        + d.cos * l.cos * t.cos * w.cos
        + d.cos * l.sin * t.sin * o.cos * w.cos
        + d.cos * t.sin * o.sin * w.sin
}

// The constant is the cosine of 85 degrees.
fn a_over_b(cos_incidence: f64, cos_zenith: f64) -> f64
    ensures { result ≡ a_over_b_of cos_incidence cos_zenith }
{
    doubles::max_of_2(0.0, cos_incidence) / doubles::max_of_2(0.08715574274765812, cos_zenith)
}

// The sun on the surface in one hour: the cosine of its incidence, and a / b.
#[derive(Clone, Copy)]
pub struct Incidence {
    pub cos: f64,
    pub a_over_b: f64,
}

// The cosine of the angle of incidence, by the arcsine of the sum. It is not quite the sum itself, since the angle goes by degrees.
pub fn incidence_cosine(arc_sine: f64) -> f64
    ensures { result ≡ incidence_cosine arc_sine }
{
    let degrees = doubles::to_degrees(arcsines::acos_by(arc_sine));
    angles::cos(doubles::to_radians(degrees))
}

// By the cosines of the angle of incidence and of the zenith.
pub fn incidence_by(cos_incidence: f64, cos_zenith: f64) -> Incidence
    ensures { result ≡ incidence_by cos_incidence cos_zenith }
{
    Incidence {
        cos: cos_incidence,
        a_over_b: a_over_b(cos_incidence, cos_zenith),
    }
}

// By the sines and cosines of latitude, declination, tilt and orientation, and the sun of the hour.
pub fn incidence_of(l: SinCos, d: SinCos, t: SinCos, o: SinCos, hour: Hour) -> Incidence
    ensures { result ≡ incidence_of l d t o hour }
{
    let w = hour.hour_angle;
    let cos_incidence = incidence_cosine(arcsines::asin(incidence_argument(l, d, t, o, w)));
    incidence_by(cos_incidence, hour.cos_zenith)
}
