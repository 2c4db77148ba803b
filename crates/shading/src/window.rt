// The shade of the objects at the window, near obstacles left aside.
ghost use Rattle.std.specs.Prelude.{◌≡◌};
ghost use Rattle.doubles.specs.Arithmetic.{whole};
ghost use Rattle.doubles.specs.Functions.{largest_of};
ghost use Rattle.shading.specs.Factor.{window_overhang_extents, right_fin_extents, left_fin_extents, has_reveal};
ghost use Rattle.shading.specs.ObjectSteps.{window_step};

use crate::sun_on_surface::SunOnSurface;
use objects::window::{WindowShadingObject, WindowShadingType};

// The largest extents so far, of overhangs and of right and left fins, and whether there was a reveal.
#[derive(Clone, Copy)]
pub struct WindowShades {
    pub overhang: f64,
    pub right: f64,
    pub left: f64,
    pub reveal: bool,
}

#[tactic(auto, unfolding(crate::specs::ObjectSteps::window_step, objects::specs::Objects::of_kind, objects::specs::Objects::kind_number))]
fn with_object(shades: WindowShades, sun: SunOnSurface, object: WindowShadingObject) -> WindowShades
    ensures { result ≡ window_step sun shades object }
{
    let size = object.size;
    let away = object.distance;
    match object.object_type {
        WindowShadingType::Obstacle => shades,
        WindowShadingType::Overhang => {
            let height = extents::window_overhang_height(
                size,
                away,
                sun.tan_altitude,
                sun.cos_difference,
            );
            WindowShades {
                overhang: doubles::max_of_2(shades.overhang, height),
                ..shades
            }
        }
        WindowShadingType::SideFinRight => WindowShades {
            right: doubles::max_of_2(shades.right, fins::fin_width(sun.fins.right, size, away)),
            ..shades
        },
        WindowShadingType::SideFinLeft => WindowShades {
            left: doubles::max_of_2(shades.left, fins::fin_width(sun.fins.left, size, away)),
            ..shades
        },
        WindowShadingType::Reveal => WindowShades {
            reveal: true,
            ..shades
        },
    }
}

// The largest extents in metres of the objects at the window; the overhangs' from that of the distant ones on.
pub fn window_shades(
    sun: SunOnSurface,
    overhang: f64,
    objects: &[WindowShadingObject],
) -> WindowShades
    ensures { (result.overhang ≡ largest_of overhang (window_overhang_extents sun objects.now))
        × (result.right ≡ largest_of (whole 0) (right_fin_extents sun objects.now))
        × (result.left ≡ largest_of (whole 0) (left_fin_extents sun objects.now))
        × (result.reveal ≡ has_reveal objects.now) }
{
    let mut shades = WindowShades {
        overhang,
        right: 0.0,
        left: 0.0,
        reveal: false,
    };
    for object in objects {
        shades = with_object(shades, sun, *object);
    }
    shades
}
