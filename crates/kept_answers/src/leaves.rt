// Functions of one to three doubles: the function's number, three arguments and the answer. Within a group the functions are counted
// from 0, and a number that is none of them gives NaN.
ghost use Rattle.std.specs.Prelude.{◌≡◌, slice_index_or};
ghost use Rattle.std.specs.Float.{nan};
ghost use Rattle.kept_answers.specs.Leaves.{angle_values, number_values, sun_values, sky_values, leaf_of};
ghost use Rattle.kept_answers.specs.Differs.{leaf_differs};

use std::num::f64_to_bits_with_nan;
use words::{double_at, word_at};

#[tactic(auto, unfolding(crate::specs::Leaves::angle_values))]
fn angle(k: u64, x: f64) -> f64
    ensures { result ≡ slice_index_or (angle_values x) k nan }
{
    match k {
        1 => angles::sin(x),
        2 => angles::cos(x),
        3 => angles::tan(x),
        4 => arcsines::asin(x),
        5 => arcsines::acos(x),
        6 => powers::pow_minus_1_253(x),
        7 => roots::sqrt(x),
        _ => f64::NAN,
    }
}

#[tactic(auto, unfolding(crate::specs::Leaves::number_values))]
fn number(k: u64, x: f64, y: f64) -> f64
    ensures { result ≡ slice_index_or (number_values x y) k nan }
{
    match k {
        0 => doubles::floor(x),
        1 => doubles::cube(x),
        2 => doubles::to_radians(x),
        3 => doubles::to_degrees(x),
        4 => doubles::min_of_2(x, y),
        5 => doubles::max_of_2(x, y),
        6 => doubles::float_min(x, y),
        7 => doubles::float_max(x, y),
        _ => f64::NAN,
    }
}

#[tactic(auto, unfolding(crate::specs::Leaves::sun_values))]
fn of_the_sun(k: u64, x: f64, y: f64, z: f64) -> f64
    ensures { result ≡ slice_index_or (sun_values x y z) k nan }
{
    match k {
        0 => days::init_solar_declination(x),
        1 => days::init_extra_terrestrial_radiation(x),
        2 => sun::hour::init_solar_hour_angle(x),
        3 => sun::hour::init_solar_altitude(x, y, z),
        4 => sun::hour::init_solar_zenith_angle(x),
        5 => sun::hour::init_air_mass(x),
        _ => f64::NAN,
    }
}

#[tactic(auto, unfolding(crate::specs::Leaves::sky_values))]
fn of_the_sky(k: u64, x: f64, y: f64, z: f64) -> f64
    ensures { result ≡ slice_index_or (sky_values x y z) k nan }
{
    match k {
        0 => irradiance::sky::init_dimensionless_clearness_parameter(x, y, z),
        1 => irradiance::sky::init_dimensionless_sky_brightness_parameter(x, y, z),
        2 => irradiance::sky::init_f1_circumsolar_brightness_coefficient(x, y, z),
        3 => irradiance::sky::init_f2_horizontal_brightness_coefficient(x, y, z),
        _ => f64::NAN,
    }
}

#[tactic(auto, using(crate::proofs::Groups::angle_leaf, crate::proofs::Groups::number_leaf, crate::proofs::Groups::sun_leaf, crate::proofs::Groups::sky_leaf))]
fn leaf(function: u64, x: f64, y: f64, z: f64) -> f64
    ensures { result ≡ leaf_of function x y z }
{
    match function {
        0..8 => angle(function, x),
        8..16 => number(function - 8, x, y),
        16..22 => of_the_sun(function - 16, x, y, z),
        22.. => of_the_sky(function - 22, x, y, z),
    }
}

// Whether a function comes out otherwise than its record says.
pub fn differs(kept: &[u8]) -> bool
    ensures { result ≡ leaf_differs kept.now }
{
    let x = double_at(kept, 3);
    let y = double_at(kept, 4);
    let z = double_at(kept, 5);
    f64_to_bits_with_nan(leaf(word_at(kept, 2), x, y, z)) != word_at(kept, 6)
}
