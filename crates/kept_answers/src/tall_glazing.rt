// Calls for tall glazing in strips: 14 words, then the three lists.
ghost use Rattle.std.specs.Prelude.{◌≡◌};
ghost use Rattle.kept_answers.specs.Differs.{glazing_of, strips_differs};

use crate::factors::answers;
use crate::parts::list_end;
use strips::factor::strips_call;
use strips::glazing::TallGlazing;
use words::{double_at, word_at};

fn glazing_of(kept: &[u8]) -> TallGlazing
    ensures { result ≡ glazing_of kept.now }
{
    TallGlazing {
        tilt: double_at(kept, 5),
        orientation: double_at(kept, 6),
        base_height: double_at(kept, 7),
        width: double_at(kept, 8),
    }
}

// Whether a call comes out otherwise than its record says.
pub fn differs(kept: &[u8]) -> bool
    ensures { result ≡ strips_differs kept.now }
{
    if kept.len() < 112 {
        return true;
    }
    let a = list_end(kept, 112, word_at(kept, 9));
    let b = list_end(kept, a, word_at(kept, 10));
    let c = list_end(kept, b, word_at(kept, 11));
    let answer = strips_call(
        word_at(kept, 2),
        double_at(kept, 3),
        double_at(kept, 4),
        glazing_of(kept),
        &kept[112..a],
        &kept[a..b],
        &kept[b..c],
    );
    !answers(kept, answer)
}
