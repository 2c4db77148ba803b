// The height that one object shades of a surface (ISO 52016-1 Annex F), after the Rust's functions of these names; fins are in `fins`.
// Lengths are in metres. The tangent and the cosine are the hour's, and handed in.
#![tactic(auto)]

ghost use Rattle.std.specs.Prelude.{◌≡◌};
ghost use Rattle.extents.specs.Extents.{obstacle_height, overhang_height, window_overhang_height};

// An obstacle, distant or near.
pub fn obstacle_shading_height(
    base_height: f64,
    height: f64,
    distance: f64,
    tan_altitude: f64,
) -> f64
    ensures { result ≡ obstacle_height base_height height distance tan_altitude }
{
    let hshade = height - base_height - distance * tan_altitude;
    // not `max`, by which a NaN would become 0: `obstacle_height` keeps it
    if hshade < 0.0 { 0.0 } else { hshade }
}

// A distant overhang with its lower edge at `lowest`.
pub fn overhang_shading_height(
    surface_height: f64,
    base_height: f64,
    lowest: f64,
    distance: f64,
    tan_altitude: f64,
) -> f64
    ensures { result ≡ overhang_height surface_height base_height lowest distance tan_altitude }
{
    doubles::float_max(
        0.0,
        surface_height + base_height - lowest + distance * tan_altitude,
    )
}

// An overhang at the window.
pub fn window_overhang_height(
    depth: f64,
    distance: f64,
    tan_altitude: f64,
    cos_difference: f64,
) -> f64
    ensures { result ≡ window_overhang_height depth distance tan_altitude cos_difference }
{
    depth * tan_altitude / cos_difference - distance
}
