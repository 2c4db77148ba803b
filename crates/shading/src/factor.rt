// The direct shading reduction factor of one hour.
ghost use Rattle.std.specs.Prelude.{◌≡◌, Ok, cond};
ghost use Rattle.doubles.specs.Functions.{float_min};
ghost use Rattle.objects.specs.declared.window.WindowShadingType.TheVariants.{Obstacle};
ghost use Rattle.objects.specs.Objects.{of_kind};
ghost use Rattle.shading.specs.Factor.{sunlit_part, sunlit_between, near_factor, least_of, extents, factor_in};

use crate::sun_on_surface::SunOnSurface;
use crate::{distant, window};
use objects::answers::Refusal;
use objects::sectors::ShadingSegment;
use objects::surface::Surface;
use objects::window::{WindowShadingObject, WindowShadingType};

// The part of the surface that a sunlit height and width make.
fn sunlit_part(surface: Surface, height: f64, width: f64) -> f64
    ensures { result ≡ sunlit_part surface height width }
{
    height * width / (surface.height * surface.width)
}

// The factor that a near obstacle allows.
fn near_factor(
    surface: Surface,
    sun: SunOnSurface,
    hk_ovh: f64,
    wk_sun: f64,
    object: WindowShadingObject,
) -> f64
    ensures { result ≡ near_factor surface sun hk_ovh wk_sun object }
{
    let new_shade_height = extents::obstacle_shading_height(
        surface.base_height,
        object.size,
        object.distance,
        sun.tan_altitude,
    );
    let hk_obst = doubles::float_min(surface.height, new_shade_height);
    let above = doubles::float_max(0.0, surface.height - (hk_obst + hk_ovh));
    let behind = doubles::float_min(hk_obst, surface.height - hk_ovh);
    sunlit_part(surface, above + behind * object.transparency, wk_sun)
}

// Only obstacles count here.
#[tactic(auto, unfolding(objects::specs::Objects::of_kind, objects::specs::Objects::kind_number))]
fn with_object(
    factor: f64,
    surface: Surface,
    sun: SunOnSurface,
    hk_ovh: f64,
    wk_sun: f64,
    object: WindowShadingObject,
) -> f64
    ensures { result ≡ cond (of_kind Obstacle object) (float_min factor (near_factor surface sun hk_ovh wk_sun object)) factor }
{
    match object.object_type {
        WindowShadingType::Obstacle => {
            doubles::float_min(factor, near_factor(surface, sun, hk_ovh, wk_sun, object))
        }
        _ => factor,
    }
}

// The least of a factor and those that the near obstacles allow, each against the largest overhang.
fn least_factor(
    first: f64,
    surface: Surface,
    sun: SunOnSurface,
    hk_ovh: f64,
    wk_sun: f64,
    objects: &[WindowShadingObject],
) -> f64
    ensures { result ≡ least_of first (extents (of_kind Obstacle) (near_factor surface sun hk_ovh wk_sun) objects.now) }
{
    let mut factor = first;
    for object in objects {
        factor = with_object(factor, surface, sun, hk_ovh, wk_sun, *object);
    }
    factor
}

// The height or width between two shades, each cut at the whole.
fn between(whole: f64, one: f64, other: f64) -> f64
    ensures { result ≡ sunlit_between whole one other }
{
    doubles::max_of_2(0.0, whole - (one + other))
}

// The factor once the sun's sector is found. A reveal is refused.
pub fn factor_in(
    surface: Surface,
    sun: SunOnSurface,
    segment: &ShadingSegment,
    window: &[WindowShadingObject],
) -> Result<f64, Refusal>
    ensures { result ≡ factor_in surface sun window.now (Ok segment.now) }
{
    let distant = distant::distant_shades(surface, sun, segment.objects());
    let near = window::window_shades(sun, distant.overhang, window);
    if near.reveal {
        return Err(Refusal::Reveal);
    }
    let hk_obst = doubles::min_of_2(surface.height, distant.obstacle);
    let hk_ovh = doubles::min_of_2(surface.height, near.overhang);
    let hk_sun = between(surface.height, hk_obst, hk_ovh);
    let wk_finr = doubles::min_of_2(surface.width, near.right);
    let wk_finl = doubles::min_of_2(surface.width, near.left);
    let wk_sun = between(surface.width, wk_finr, wk_finl);
    let first = sunlit_part(surface, hk_sun, wk_sun);
    let factor = least_factor(first, surface, sun, hk_ovh, wk_sun, window);
    Ok(factor)
}
