// Sine, cosine and tangent of an angle in radians, each defined for every double by the operations that give it: an equation with a
// definition of `specs/`.
#![tactic(auto)]

ghost use Rattle.std.specs.Prelude.{◌≡◌};
ghost use Rattle.doubles.specs.Functions.{clamp};
ghost use Rattle.angles.specs.Sine.{remainder, sine_sum, cosine_sum, sine, cosine, tangent};
ghost use Rattle.angles.specs.Reduction.{reduction};

use std::f64::consts::FRAC_2_PI;

// The brackets of both series, before the sine's is multiplied by the angle's rest.
#[derive(Clone, Copy)]
struct Sums {
    sine: f64,
    cosine: f64,
}

// The divisors 2n(2n + 1) and (2n − 1)2n of the steps of both series, for n from 8 down to 1.
const DIVISORS: [(f64, f64); 8] = [
    (272.0, 240.0),
    (210.0, 182.0),
    (156.0, 132.0),
    (110.0, 90.0),
    (72.0, 56.0),
    (42.0, 30.0),
    (20.0, 12.0),
    (6.0, 2.0),
];

// Step by step in pairs, so that two divisions go at once and both cost little more than one. Inlined, they would go one by one.
#[inline(never)]
fn sum_both(t: f64) -> Sums
    ensures { (result.sine ≡ sine_sum t) × (result.cosine ≡ cosine_sum t) }
{
    let mut sine = 1.0;
    let mut cosine = 1.0;
    for (in_sine, in_cosine) in DIVISORS {
        sine = 1.0 - t / in_sine * sine;
        cosine = 1.0 - t / in_cosine * cosine;
    }
    Sums { sine, cosine }
}

// An angle's quarter turns modulo 4, and the rest.
#[derive(Clone, Copy)]
struct Reduced {
    quadrant: u64,
    rest: f64,
}

// With k quarter turns, which are so many modulo 4.
fn left_over(a: f64, k: f64, quadrant: u64) -> Reduced
    ensures { (result.quadrant ≡ quadrant) × (result.rest ≡ remainder a k) }
{
    Reduced {
        quadrant,
        rest: (a - k * 1.5707963267341256) - k * 6.077100506506192e-11,
    }
}

// One truncation gives both k and k mod 4. A v that is whole is k itself, and keeps a zero's sign.
fn reduce(a: f64) -> Option<Reduced>
    ensures { result ≡ reduction a }
{
    if (-64.0 <= a) & (a <= 64.0) {
        let v = a * FRAC_2_PI + 0.5;
        if 0.0 < v {
            let n = std::num::truncating_f64_to_u64(v);
            return Some(left_over(a, n as u32 as f64, n % 4));
        }
        let n = std::num::truncating_f64_to_u64(-v);
        if -(n as u32 as f64) == v {
            Some(left_over(a, v, (4 - n % 4) % 4))
        } else {
            Some(left_over(a, -((n + 1) as u32 as f64), 3 - n % 4))
        }
    } else {
        None
    }
}

// The sine and the cosine of one angle.
#[derive(Clone, Copy)]
pub struct SinCos {
    pub sin: f64,
    pub cos: f64,
}

fn both_clamped(sin: f64, cos: f64) -> SinCos
    ensures { (result.sin ≡ clamp sin) × (result.cos ≡ clamp cos) }
{
    SinCos {
        sin: doubles::clamped(sin),
        cos: doubles::clamped(cos),
    }
}

// Both of one angle, in radians: one reduction, and each series once. From −1 to 1, and NaN where |a| is above 64 or a is NaN.
pub fn sin_cos(a: f64) -> SinCos
    ensures { (result.sin ≡ sine a) × (result.cos ≡ cosine a) }
{
    let Some(angle) = reduce(a) else {
        return SinCos {
            sin: f64::NAN,
            cos: f64::NAN,
        };
    };
    let sums = sum_both(angle.rest * angle.rest);
    let s = sums.sine * angle.rest;
    let c = sums.cosine;
    match angle.quadrant {
        0 => both_clamped(s, c),
        1 => both_clamped(c, -s),
        2 => both_clamped(-s, -c),
        _ => both_clamped(-c, s),
    }
}

// The sine of an angle a, in radians.
pub fn sin(a: f64) -> f64
    ensures { result ≡ sine a }
{
    sin_cos(a).sin
}

// The cosine, likewise.
pub fn cos(a: f64) -> f64
    ensures { result ≡ cosine a }
{
    sin_cos(a).cos
}

// The tangent of an angle a, in radians: the sine by the cosine.
pub fn tan(a: f64) -> f64
    ensures { result ≡ tangent a }
{
    let both = sin_cos(a);
    both.sin / both.cos
}
