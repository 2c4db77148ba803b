// The shade of a sector's objects.
ghost use Rattle.std.specs.Prelude.{◌≡◌};
ghost use Rattle.doubles.specs.Arithmetic.{whole};
ghost use Rattle.doubles.specs.Functions.{largest_of};
ghost use Rattle.shading.specs.Factor.{obstacle_extents, overhang_extents};
ghost use Rattle.shading.specs.ObjectSteps.{distant_step};

use crate::sun_on_surface::SunOnSurface;
use objects::sectors::{ShadingObject, ShadingObjectType};
use objects::surface::Surface;

// The largest heights shaded so far, by obstacles and by overhangs.
#[derive(Clone, Copy)]
pub struct DistantShades {
    pub obstacle: f64,
    pub overhang: f64,
}

#[tactic(auto, unfolding(crate::specs::ObjectSteps::distant_step, objects::specs::Objects::is_obstacle, objects::specs::Objects::is_overhang))]
fn with_object(
    shades: DistantShades,
    surface: Surface,
    sun: SunOnSurface,
    object: ShadingObject,
) -> DistantShades
    ensures { result ≡ distant_step surface sun shades object }
{
    match object.object_type {
        ShadingObjectType::Obstacle => {
            let height = extents::obstacle_shading_height(
                surface.base_height,
                object.height,
                object.distance,
                sun.tan_altitude,
            );
            DistantShades {
                obstacle: doubles::max_of_2(shades.obstacle, height),
                ..shades
            }
        }
        ShadingObjectType::Overhang => {
            let height = extents::overhang_shading_height(
                surface.height,
                surface.base_height,
                object.height,
                object.distance,
                sun.tan_altitude,
            );
            DistantShades {
                overhang: doubles::max_of_2(shades.overhang, height),
                ..shades
            }
        }
    }
}

// The largest shades of a sector's objects, in metres.
pub fn distant_shades(
    surface: Surface,
    sun: SunOnSurface,
    objects: &[ShadingObject],
) -> DistantShades
    ensures { (result.obstacle ≡ largest_of (whole 0) (obstacle_extents surface sun objects.now))
        × (result.overhang ≡ largest_of (whole 0) (overhang_extents surface sun objects.now)) }
{
    let mut shades = DistantShades {
        obstacle: 0.0,
        overhang: 0.0,
    };
    for object in objects {
        shades = with_object(shades, surface, sun, *object);
    }
    shades
}
