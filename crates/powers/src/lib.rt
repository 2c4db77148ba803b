// The power −1.253, defined for every double by the operations that give it: an equation with a definition of `specs/`.
#![tactic(auto)]

ghost use Rattle.std.specs.Prelude.{◌≡◌};
ghost use Rattle.powers.specs.Power.{logarithm_of, power_of, pow_minus1253};

// The divisors 2n + 1 of the logarithm's terms, for n from 10 down to 0.
const ODD_NUMBERS: [f64; 11] = [21.0, 19.0, 17.0, 15.0, 13.0, 11.0, 9.0, 7.0, 5.0, 3.0, 1.0];

// The natural logarithm of w · 2 ^ m.
fn logarithm(m: f64, w: f64) -> f64
    ensures { result ≡ logarithm_of m w }
{
    let z = (w - 1.0) / (w + 1.0);
    let mut h = 1.0 / 23.0;
    for divisor in ODD_NUMBERS {
        h = 1.0 / divisor + z * z * h;
    }
    m * 0.6931471805599453 + 2.0 * z * h
}

// The divisors n of the exponential series' steps, from 16 down to 1.
const DIVISORS: [f64; 16] = [
    16.0, 15.0, 14.0, 13.0, 12.0, 11.0, 10.0, 9.0, 8.0, 7.0, 6.0, 5.0, 4.0, 3.0, 2.0, 1.0,
];

// e to the power −1.253 · l.
fn power(l: f64) -> f64
    ensures { result ≡ power_of l }
{
    let v = -1.253 * l / 16.0;
    let mut h = 1.0;
    for divisor in DIVISORS {
        h = 1.0 + v / divisor * h;
    }
    let p2 = h * h;
    let p4 = p2 * p2;
    let p8 = p4 * p4;
    p8 * p8
}

// u to the power −1.253, for u from 3 to 14, which have no unit; elsewhere NaN.
pub fn pow_minus_1_253(u: f64) -> f64
    ensures { result ≡ pow_minus1253 u }
{
    if (3.0 <= u) & (u <= 14.0) {
        if u < 5.6 {
            power(logarithm(2.0, u / 4.0))
        } else if u < 11.2 {
            power(logarithm(3.0, u / 8.0))
        } else {
            power(logarithm(4.0, u / 16.0))
        }
    } else {
        f64::NAN
    }
}
