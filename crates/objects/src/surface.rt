// The shaded surface, and its check.
ghost use Rattle.std.specs.Prelude.{◌≡◌};
ghost use Rattle.objects.specs.Surface.{surface_fine};

// Angles in degrees, the orientation from north; lengths in metres.
#[derive(Clone, Copy)]
pub struct Surface {
    pub tilt: f64,
    pub orientation: f64,
    pub base_height: f64,
    pub height: f64,
    pub width: f64,
}

// Whether every field is in its range.
pub fn surface_fine(surface: Surface) -> bool
    ensures { result ≡ surface_fine surface }
{
    let tilt = (0.0 <= surface.tilt) & (surface.tilt <= 180.0);
    let orientation = (0.0 <= surface.orientation) & (surface.orientation <= 360.0);
    let base_height = (0.0 <= surface.base_height) & (surface.base_height <= 1000.0);
    let height = (0.001 <= surface.height) & (surface.height <= 1000.0);
    let width = (0.001 <= surface.width) & (surface.width <= 1000.0);
    tilt & orientation & base_height & height & width
}
