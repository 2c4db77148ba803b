// The factor of one step, from the lent lists.
ghost use Rattle.std.specs.Prelude.{◌≡◌};
ghost use Rattle.objects.specs.Records.{sectors_of, window_objects_of};
ghost use Rattle.shading.specs.Factor.{shading_factor};
ghost use Rattle.shading.specs.Call.{sun_fine, factor_call};

use crate::factor::factor_in;
use crate::sun_on_surface::sun_on;
use beam::outside_solar_beam;
use object_checks::lists::{Sectors, Window};
use objects::answers::Refusal;
use objects::sectors::ShadingSegment;
use objects::surface::{Surface, surface_fine};
use objects::window::WindowShadingObject;
use segments::{find_segment, get_segment};

// The direct shading reduction factor of one sun, or why there is none, by the sectors and the objects at the window. Altitude and
// azimuth, from south, are in degrees.
pub fn factor_of(
    edition: u64,
    surface: Surface,
    altitude: f64,
    azimuth: f64,
    sectors: &[ShadingSegment],
    window: &[WindowShadingObject],
) -> Result<f64, Refusal>
    ensures { result ≡ shading_factor edition surface altitude azimuth sectors.now window.now }
{
    if outside_solar_beam(surface.tilt, surface.orientation, altitude, azimuth) {
        return Ok(1.0);
    }
    let place = get_segment(azimuth, sectors)?;
    let sun = sun_on(edition, surface, altitude, azimuth);
    factor_in(surface, sun, &sectors[place], window)
}

// The same by accepted lists.
pub fn direct_shading_reduction_factor(
    edition: u64,
    surface: Surface,
    altitude: f64,
    azimuth: f64,
    sectors: Sectors,
    window: Window,
) -> Result<f64, Refusal>
    ensures { result ≡ shading_factor edition surface altitude azimuth (sectors_of sectors.entry.bytes.now) (window_objects_of window.entry.bytes.now) }
{
    if outside_solar_beam(surface.tilt, surface.orientation, altitude, azimuth) {
        return Ok(1.0);
    }
    let found = find_segment(azimuth, sectors.bytes)?;
    let sun = sun_on(edition, surface, altitude, azimuth);
    factor_in(surface, sun, &found.segment, window.objects().objects())
}

// Whether a sun that is named in a call is in its range.
pub fn sun_fine(altitude: f64, azimuth: f64) -> bool
    ensures { result ≡ sun_fine altitude azimuth }
{
    (0.0 <= altitude) & (altitude <= 90.0) & ((-360.0 <= azimuth) & (azimuth <= 360.0))
}

// The factor for any edition, sun, surface and lists, each checked here. Altitude and azimuth, from south, are in degrees.
pub fn factor_call(
    edition: u64,
    altitude: f64,
    azimuth: f64,
    surface: Surface,
    sectors: &[u8],
    window: &[u8],
) -> Result<f64, Refusal>
    ensures { result ≡ factor_call edition altitude azimuth surface sectors.now window.now }
{
    if !fins::edition_fine(edition) {
        return Err(Refusal::Edition);
    }
    if !(sun_fine(altitude, azimuth) & surface_fine(surface)) {
        return Err(Refusal::Surface);
    }
    let sectors = Sectors::check(sectors)?;
    let window = Window::check(window)?;
    direct_shading_reduction_factor(edition, surface, altitude, azimuth, sectors, window)
}
