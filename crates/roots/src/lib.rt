// The correctly rounded square root of a double, in whole-number arithmetic. What a reader must believe of it is specs/IsRoot.antt.
// Not by the library's `sqrt`, since the specification states the root over whole numbers.
#![tactic(auto)]

ghost use Rattle.std.specs.Prelude.{◌≡◌, false, ◌+◌, ◌*◌, ◌/◌, ◌%◌, ◌^◌, ◌<◌, ◌≤◌};
ghost use Rattle.std.specs.Float.{binary64};
ghost use Rattle.std.specs.Float.Ieee.{odd, of_bits};
ghost use Rattle.roots.specs.Root.{whole_root, nearest_root, square_root};

// The largest whole number whose square is at most h, digit by digit.
fn whole_root(h: u64) -> u64
    ensures { result ≡ whole_root 32 h }
{
    let mut r = 0;
    for i in 0..32u64 {
        r *= 2;
        if (r + 1) * (r + 1) <= h >> (62 - 2 * i) {
            r += 1;
        }
    }
    r
}

// A guess at 2^31 times the root of m * 2^p / 2^52, which lies from 1 to 2: the reciprocal root from
// the bit pattern, mended by a step of Newton's method and one of the next order, less a margin. Nothing
// rests on it: the caller tests it.
fn guess(m: u64, p: u64) -> u64
    requires m_bound { m < 2 ^ 53 }
    requires p_bound { p < 2 }
    ensures { result < 2 ^ 32 }
{
    let b = m + (1022 + p) * 0x10_0000_0000_0000;
    let x = f64::from_bits(b);
    let y0 = f64::from_bits(0x5fe3_ffff_2000_0000 - b / 2);
    let s0 = x * y0;
    let w = 1.6819143935346 - 0.703952253 * y0 * s0;
    let s = s0 * w;
    let e = 1.0 - s * (y0 * w);
    // 2^21 puts the digits of the root down to 2^-31 at the end of the pattern
    let t = (s + 2097151.9999999981) + s * e * (0.5 + 0.375 * e);
    if t > 0.0 {
        t.to_bits() % 0x1_0000_0000
    } else {
        0
    }
}

// A whole number at most h's root and near it: g where it is one.
fn lower_root(h: u64, g: u64) -> u64
    requires { g < 2 ^ 32 }
    ensures { (result * result ≤ h) × (h ≤ result * result + 32 * result) }
{
    if g * g <= h && h - g * g <= 32 * g {
        g
    } else {
        whole_root(h)
    }
}

// The whole number nearest to the root of h * 2^42, with a guess g at h's root. With s below h's root
// and near it, r = s * 2^21 + q is near the root of h * 2^42, which is r^2 + rest * 2^21 - q^2.
fn nearest_root(h: u64, g: u64) -> u64
    requires h_bound { 2 ^ 62 ≤ h }
    requires g_bound { g < 2 ^ 32 }
    ensures { result ≡ nearest_root 53 (h * 2 ^ 42) }
{
    let s = lower_root(h, g);
    let d = (h - s * s) * 0x20_0000;
    let q = d / (2 * s);
    let rest = d % (2 * s);
    let r = s * 0x20_0000 + q;
    if rest * 0x20_0000 > q * q + r {
        r + 1
    } else {
        r
    }
}

// The root of m * 2^f / 2^54 units of 2^-1074, whose significand r has 53 digits: with k = f / 2 it is r * 2^k / 2^590.
fn root_of(m: u64, f: u64) -> f64
    requires from_digits { 2 ^ 52 ≤ m }
    requires to_digits { m < 2 ^ 53 }
    requires f_bound { f ≤ 2099 }
    ensures { result ≡ odd 53 false (nearest_root 53 (m * 2 ^ (f % 2) * 2 ^ 52)) (f / 2) 590 }
{
    let p = f % 2;
    let r = nearest_root((m << p) * 1024, guess(m, p));
    f64::from_bits((f / 2 + 484) * 0x10_0000_0000_0000 + r)
}

// The root of the positive finite double with the pattern b.
fn root_of_bits(b: u64) -> f64
    requires positive { 0 < b }
    requires finite { b < 0x7ff0_0000_0000_0000 }
    ensures { result ≡ square_root (of_bits binary64 b) }
{
    let field = b / 0x10_0000_0000_0000;
    if field > 0 {
        return root_of(0x10_0000_0000_0000 + b % 0x10_0000_0000_0000, field + 53);
    }
    let lift = b.leading_zeros() as u64 - 11;
    root_of(b << lift, 54 - lift)
}

// The double nearest to the exact root of x, in whatever unit x is the square of; a NaN for a NaN and below zero.
pub fn sqrt(x: f64) -> f64
    ensures { result ≡ square_root x }
{
    if x > 0.0 {
        let b = x.to_bits();
        if b < 0x7ff0_0000_0000_0000 {
            return root_of_bits(b);
        }
        return x; // the infinity
    }
    if x == 0.0 {
        return x; // a zero, with its sign
    }
    f64::NAN
}
