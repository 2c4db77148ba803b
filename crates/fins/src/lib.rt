// The width that a fin at the window shades (ISO 52016-1 Annex F), in the two editions of the rule. Only fins differ between editions.
// The difference is the sun's azimuth less the surface's orientation from south, in degrees, not wrapped. Lengths are in metres.
#![tactic(auto)]

ghost use Rattle.std.specs.Prelude.{◌≡◌};
ghost use Rattle.doubles.specs.Functions.{to_radians};
ghost use Rattle.angles.specs.Sine.{tangent};
ghost use Rattle.fins.specs.Fins.{edition_fine, fin_width, right_fin1, left_fin1, left_fin2, fins_of};

use doubles::to_radians;

// How the right and the left fins shade in an hour: by a tangent, or not at all.
#[derive(Clone, Copy)]
pub struct Fins {
    pub right: Option<f64>,
    pub left: Option<f64>,
}

// The editions that a call may name: 1 and 2.
pub fn edition_fine(edition: u64) -> bool
    ensures { result ≡ edition_fine edition }
{
    (edition == 1) | (edition == 2)
}

pub fn fin_width(tangent: Option<f64>, depth: f64, distance: f64) -> f64
    ensures { result ≡ fin_width tangent depth distance }
{
    tangent.map_or(0.0, |t| depth * t - distance)
}

// Both sides by an edition: this is the one place that looks at it. The tangent of the difference is edition 1's, which the caller has.
// The edition is a number and no enum: the theorems on factors, as `SizesAtOneStep`, speak of every number.
pub fn fins_of(edition: u64, difference: f64, tan_difference: f64) -> Fins
    requires { tan_difference ≡ tangent (to_radians difference) }
    ensures { result ≡ fins_of edition difference }
{
    if edition == 2 {
        // By the wrapped difference: a right fin shades where it is below 0, by the tangent of its opposite, a left fin where it is above.
        let wrapped = orientation::wrap_once(difference);
        return Fins {
            right: (wrapped < 0.0).then(|| angles::tan(to_radians(-wrapped))),
            left: (wrapped > 0.0).then(|| angles::tan(to_radians(wrapped))),
        };
    }
    // After the Rust: a right fin shades where the difference is not above 0, a left fin where it is not below, both by its tangent.
    Fins {
        right: (!(difference > 0.0)).then_some(tan_difference),
        left: (!(difference < 0.0)).then_some(tan_difference),
    }
}
