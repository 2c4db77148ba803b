// The sun as it stands to the surface.
ghost use Rattle.std.specs.Prelude.{◌≡◌};
ghost use Rattle.shading.specs.Factor.{sun_on};

use fins::Fins;
use objects::surface::Surface;

// In an hour: the tangent of its altitude, the cosine of its azimuth less the surface's orientation from south, not wrapped, and how
// fins shade.
#[derive(Clone, Copy)]
pub struct SunOnSurface {
    pub tan_altitude: f64,
    pub cos_difference: f64,
    pub fins: Fins,
}

// By the edition that names the rule for fins, and the sun's altitude and its azimuth from south, in degrees.
pub fn sun_on(edition: u64, surface: Surface, altitude: f64, azimuth: f64) -> SunOnSurface
    ensures { result ≡ sun_on edition surface altitude azimuth }
{
    let difference = azimuth - orientation::transform_to_180(surface.orientation);
    let radians = doubles::to_radians(difference);
    let both = angles::sin_cos(radians);
    SunOnSurface {
        tan_altitude: angles::tan(doubles::to_radians(altitude)),
        cos_difference: both.cos,
        fins: fins::fins_of(edition, difference, both.sin / both.cos),
    }
}
