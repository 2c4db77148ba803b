// Functions on doubles that the language has no operator for. Where nothing else is said, results have the unit of the arguments.
#![tactic(auto)]

ghost use Rattle.std.specs.Prelude.{◌≡◌};
ghost use Rattle.doubles.specs.Functions.{min_of2, max_of2, float_min, float_max, clamp, floor_of, cube_of, to_radians, to_degrees};

// The double nearest to PI, for every crate.
pub const PI: f64 = std::f64::consts::PI;

// Not the library's `min` and `max`: of two zeros these may give either, and here the definitions say which. The pairs differ in a comparison;
// one function for both, with the comparison as a parameter, is no plainer.

// The smaller of two, and the second where the comparison fails.
#[tactic(auto, unfolding(crate::specs::Functions::min_of2))]
pub fn min_of_2(first: f64, second: f64) -> f64
    ensures { result ≡ min_of2 first second }
{
    if first < second { first } else { second }
}

// The larger of two, and the second where the comparison fails.
#[tactic(auto, unfolding(crate::specs::Functions::max_of2))]
pub fn max_of_2(first: f64, second: f64) -> f64
    ensures { result ≡ max_of2 first second }
{
    if first > second { first } else { second }
}

// The float method `min`: it drops a NaN, and is otherwise as min_of_2.
#[tactic(auto, using(crate::proofs::FloatMethods::min_shape))]
pub fn float_min(x: f64, y: f64) -> f64
    ensures { result ≡ float_min x y }
{
    if x < y || y.is_nan() { x } else { y }
}

// The float method `max`: it drops a NaN, and is otherwise as max_of_2.
#[tactic(auto, using(crate::proofs::FloatMethods::max_shape))]
pub fn float_max(x: f64, y: f64) -> f64
    ensures { result ≡ float_max x y }
{
    if x > y || y.is_nan() { x } else { y }
}

// Clamped to −1..1; NaN stays NaN.
pub fn clamped(x: f64) -> f64
    ensures { result ≡ clamp x }
{
    x.clamp(-1.0, 1.0)
}

// The largest whole number that is not above x.
pub fn floor(x: f64) -> f64
    ensures { result ≡ floor_of x }
{
    x.floor()
}

// The power 3, in the cube of the unit of a.
pub fn cube(a: f64) -> f64
    ensures { result ≡ cube_of a }
{
    a * a * a
}

// Degrees in radians.
pub fn to_radians(degrees: f64) -> f64
    ensures { result ≡ to_radians degrees }
{
    degrees.to_radians()
}

// Radians in degrees.
pub fn to_degrees(radians: f64) -> f64
    ensures { result ≡ to_degrees radians }
{
    radians.to_degrees()
}
