// The factor of tall glazing in strips. Beam, walk and reveal do not depend on a strip's base or height: the sun's sector is looked for
// once, and the sun's tangents are worked out once.
ghost use Rattle.std.specs.Prelude.{◌≡◌, Ok, true};
ghost use Rattle.objects.specs.Records.{sectors_of, window_objects_of};
ghost use Rattle.shading.specs.Factor.{factor_in};
ghost use Rattle.strips.specs.Strips.{strips_of, strips_fine, mean_factor, strips_factor, strips_call};

use crate::glazing::{TallGlazing, strip_of, strips_fine};
use beam::outside_solar_beam;
use object_checks::lists::{Sectors, Window};
use objects::answers::Refusal;
use objects::sectors::ShadingSegment;
use objects::window::WindowShadingObject;
use segments::find_segment;
use shading::factor::factor_in;
use shading::step::sun_fine;
use shading::sun_on_surface::{SunOnSurface, sun_on};
use words::{double_at, word_count};

// The sum of factor times height divided by the sum of heights, both from the bottom up, once the sun's sector is found.
fn mean_in(
    glazing: TallGlazing,
    heights: &[u8],
    sun: SunOnSurface,
    segment: &ShadingSegment,
    window: &[WindowShadingObject],
) -> Result<f64, Refusal>
    ensures { result ≡ mean_factor (λ strip. factor_in strip sun window.now (Ok segment.now)) (strips_of glazing heights.now) }
{
    let mut base = glazing.base_height;
    let mut weighted = 0.0;
    let mut total = 0.0;
    for i in 0..word_count(heights) {
        let height = double_at(heights, i);
        let factor = factor_in(strip_of(glazing, base, height), sun, segment, window)?;
        weighted += factor * height;
        total += height;
        base += height;
    }
    Ok(weighted / total)
}

// The factor of strips and lists that have passed their checks.
pub fn strips_factor(
    edition: u64,
    altitude: f64,
    azimuth: f64,
    glazing: TallGlazing,
    heights: &[u8],
    sectors: Sectors,
    window: Window,
) -> Result<f64, Refusal>
    requires { strips_fine glazing heights.now ≡ true }
    ensures { result ≡ strips_factor edition altitude azimuth (strips_of glazing heights.now) (sectors_of sectors.entry.bytes.now) (window_objects_of window.entry.bytes.now) }
{
    if outside_solar_beam(glazing.tilt, glazing.orientation, altitude, azimuth) {
        return Ok(1.0);
    }
    let found = find_segment(azimuth, sectors.bytes)?;
    let lowest = strip_of(glazing, glazing.base_height, double_at(heights, 0));
    let sun = sun_on(edition, lowest, altitude, azimuth);
    mean_in(
        glazing,
        heights,
        sun,
        &found.segment,
        window.objects().objects(),
    )
}

// The factor for any edition, sun, glazing, strips and lists, each checked here. Altitude and azimuth, from south, are in degrees.
pub fn strips_call(
    edition: u64,
    altitude: f64,
    azimuth: f64,
    glazing: TallGlazing,
    heights: &[u8],
    sectors: &[u8],
    window: &[u8],
) -> Result<f64, Refusal>
    ensures { result ≡ strips_call edition altitude azimuth glazing heights.now sectors.now window.now }
{
    if !fins::edition_fine(edition) {
        return Err(Refusal::Edition);
    }
    if !(sun_fine(altitude, azimuth) & strips_fine(glazing, heights)) {
        return Err(Refusal::Surface);
    }
    let sectors = Sectors::check(sectors)?;
    let window = Window::check(window)?;
    strips_factor(
        edition, altitude, azimuth, glazing, heights, sectors, window,
    )
}
