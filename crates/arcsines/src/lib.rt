// Arcsine and arccosine in radians, each defined for every double by the operations that give it: an equation with a definition of
// `specs/`.
#![tactic(auto)]

ghost use Rattle.std.specs.Prelude.{◌≡◌};
ghost use Rattle.arcsines.specs.Arcsine.{arcsine_series, complement, upward_by, arcsine, arccosine};
ghost use Rattle.arcsines.specs.ArcsineParts.{both, magnitude, series_argument, arcsine_by};

use doubles::PI;

// Two numbers at once.
#[derive(Clone, Copy)]
pub struct Both {
    pub first: f64,
    pub second: f64,
}

// The factors (2n − 1)² and the divisors 2n(2n + 1) of the series' steps, for n from 24 down to 1.
const STEPS: [(f64, f64); 24] = [
    (2209.0, 2352.0),
    (2025.0, 2162.0),
    (1849.0, 1980.0),
    (1681.0, 1806.0),
    (1521.0, 1640.0),
    (1369.0, 1482.0),
    (1225.0, 1332.0),
    (1089.0, 1190.0),
    (961.0, 1056.0),
    (841.0, 930.0),
    (729.0, 812.0),
    (625.0, 702.0),
    (529.0, 600.0),
    (441.0, 506.0),
    (361.0, 420.0),
    (289.0, 342.0),
    (225.0, 272.0),
    (169.0, 210.0),
    (121.0, 156.0),
    (81.0, 110.0),
    (49.0, 72.0),
    (25.0, 42.0),
    (9.0, 20.0),
    (1.0, 6.0),
];

// The series of two arguments, step by step in pairs, so that two divisions go at once and both cost little more than one.
fn arcsine_series_both(a: f64, b: f64) -> Both
    ensures { result ≡ both (arcsine_series a) (arcsine_series b) }
{
    let t = a * a;
    let u = b * b;
    let mut h = 1.0;
    let mut k = 1.0;
    for (factor, divisor) in STEPS {
        h = 1.0 + t * factor / divisor * h;
        k = 1.0 + u * factor / divisor * k;
    }
    Both {
        first: a * h,
        second: b * k,
    }
}

fn magnitude(a: f64) -> f64
    ensures { result ≡ magnitude a }
{
    if a < 0.0 { -a } else { a }
}

// Whose series gives the arcsine of m.
fn series_argument(m: f64) -> f64
    ensures { result ≡ series_argument m }
{
    if m <= 0.5 {
        m
    } else {
        roots::sqrt((1.0 - m) / 2.0)
    }
}

// The arcsine of m by that series.
fn arcsine_upward(m: f64, series: f64) -> f64
    ensures { result ≡ upward_by m series series }
{
    if m <= 0.5 {
        series
    } else {
        PI / 2.0 - 2.0 * series
    }
}

// The arcsine of a by the series of its magnitude. Beyond ±1 it is that of the end, which is taken only here, where nothing waits for it.
fn arcsine_by(a: f64, series: f64) -> f64
    ensures { result ≡ arcsine_by a series }
{
    let right_angle = PI / 2.0;
    if a > 1.0 {
        right_angle
    } else if a < -1.0 {
        -right_angle
    } else if a < 0.0 {
        -arcsine_upward(-a, series)
    } else {
        arcsine_upward(a, series)
    }
}

// The arcsine of a, in radians, from −PI/2 to PI/2: a number above 1 is taken as 1, one below −1 as −1, and NaN gives NaN. The series
// of two cost no more than that of one, so there is no other.
pub fn asin(a: f64) -> f64
    ensures { result ≡ arcsine a }
{
    let argument = series_argument(magnitude(a));
    let series = arcsine_series_both(argument, argument);
    arcsine_by(a, series.first)
}

// Two arcsines at once, in radians.
pub fn asin_both(a: f64, b: f64) -> Both
    ensures { (result.first ≡ arcsine a) × (result.second ≡ arcsine b) }
{
    let first = series_argument(magnitude(a));
    let second = series_argument(magnitude(b));
    let series = arcsine_series_both(first, second);
    Both {
        first: arcsine_by(a, series.first),
        second: arcsine_by(b, series.second),
    }
}

// The arccosine of a number by its arcsine, both in radians.
pub fn acos_by(arc_sine: f64) -> f64
    ensures { result ≡ complement arc_sine }
{
    PI / 2.0 - arc_sine
}

// The arccosine of a, in radians, from 0 to PI; it clamps nothing but by its arcsine.
pub fn acos(a: f64) -> f64
    ensures { result ≡ arccosine a }
{
    acos_by(asin(a))
}
