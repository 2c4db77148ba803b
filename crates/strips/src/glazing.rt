// Tall glazing, its strips, and their check.
ghost use Rattle.std.specs.Prelude.{◌≡◌};
ghost use Rattle.strips.specs.Strips.{strip_of, count_fine, strips_fine};

use objects::surface::{Surface, surface_fine};
use words::{double_at, word_count};

// A surface whose height is that of its strips together. Angles in degrees, the orientation from north; lengths in metres.
#[derive(Clone, Copy)]
pub struct TallGlazing {
    pub tilt: f64,
    pub orientation: f64,
    pub base_height: f64,
    pub width: f64,
}

// The strip with a base and a height of its own.
pub fn strip_of(glazing: TallGlazing, base: f64, height: f64) -> Surface
    ensures { result ≡ strip_of glazing base height }
{
    Surface {
        tilt: glazing.tilt,
        orientation: glazing.orientation,
        base_height: base,
        height,
        width: glazing.width,
    }
}

// Whether a list of heights has 1 to 12 of them and no part of one.
fn count_fine(heights: &[u8]) -> bool
    ensures { result ≡ count_fine heights.now }
{
    let whole = heights.len() % 8 == 0;
    let n = word_count(heights);
    whole & (1 <= n) & (n <= 12)
}

// Whether there are 1 to 12 strips, each in its range: bottom first, each on the one below.
pub fn strips_fine(glazing: TallGlazing, heights: &[u8]) -> bool
    ensures { result ≡ strips_fine glazing heights.now }
{
    if !count_fine(heights) {
        return false;
    }
    let mut base = glazing.base_height;
    let mut fine = true;
    for i in 0..word_count(heights) {
        let height = double_at(heights, i);
        fine = fine & surface_fine(strip_of(glazing, base, height));
        base += height;
    }
    fine
}
