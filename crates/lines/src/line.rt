// One line with values.
ghost use Rattle.std.specs.Prelude.{◌≡◌, length};
ghost use Rattle.std.specs.List.{list_all, range_with_len};
ghost use Rattle.shading.specs.Call.{factor_call};
ghost use Rattle.lines.specs.Line.{parted, values, whole_horizon, one_obstacle, line_answer};

use objects::answers::Refusal;
use objects::surface::Surface;
use std::num::f64_from_bits_with_nan;

// Ten values of sixteen digits, and nine spaces between them.
const LINE_LENGTH: usize = 169;

// Whether a space stands behind each of the first nine values.
#[tactic(auto, unfolding(crate::specs::Line::parted))]
fn spaces_fine(line: &[u8]) -> bool
    ensures { result ≡ list_all (parted line.now) (range_with_len 0 9) }
{
    (0..9).all(|k| line.get(17 * k + 16) == Some(&b' '))
}

// The ten values, where a line has them with single spaces between.
fn values(line: &[u8]) -> Option<[f64; 10]>
    ensures { result ≡ values line.now }
{
    if line.len() != LINE_LENGTH || !spaces_fine(line) {
        return None;
    }
    let mut values = [0.0; 10];
    for k in 0..10 {
        values[k] = f64_from_bits_with_nan(hexadecimal::digits_at(line, 17 * k)?);
    }
    Some(values)
}

// The sector list: one sector from 0 to 360 degrees without an object.
pub fn whole_horizon() -> [u8; 216]
    ensures { (result ≡ whole_horizon) × (216 ≡ length result) }
{
    let mut sectors = [0u8; 216];
    words::store_double(&mut sectors, 1, 360.0);
    sectors
}

// The window list: one near obstacle.
#[tactic(auto, unfolding(crate::specs::Line::one_obstacle))]
pub fn one_obstacle(height: f64, distance: f64, transparency: f64) -> [u8; 32]
    ensures { (result ≡ one_obstacle height distance transparency) × (32 ≡ length result) }
{
    let mut window = [0u8; 32];
    words::store_double(&mut window, 1, height);
    words::store_double(&mut window, 2, distance);
    words::store_double(&mut window, 3, transparency);
    window
}

// The factor call that a line stands for, in edition 1.
pub fn listed_factor(
    altitude: f64,
    azimuth: f64,
    surface: Surface,
    shade: f64,
    distance: f64,
    transparency: f64,
) -> Result<f64, Refusal>
    ensures { result ≡ factor_call 1 altitude azimuth surface whole_horizon (one_obstacle shade distance transparency) }
{
    let sectors = whole_horizon();
    let window = one_obstacle(shade, distance, transparency);
    shading::step::factor_call(1, altitude, azimuth, surface, &sectors, &window)
}

// The answer to a line without its line feed.
pub fn line_answer(line: &[u8]) -> Result<f64, Refusal>
    ensures { result ≡ line_answer line.now }
{
    let Some(values) = values(line) else {
        return Err(Refusal::Line);
    };
    let [
        altitude,
        azimuth,
        base_height,
        height,
        width,
        tilt,
        orientation,
        shade,
        distance,
        transparency,
    ] = values;
    let surface = Surface {
        tilt,
        orientation,
        base_height,
        height,
        width,
    };
    listed_factor(altitude, azimuth, surface, shade, distance, transparency)
}
