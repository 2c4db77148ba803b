// Shade listings: the lengths of a listing and of the lines that answer it, then both.
ghost use Rattle.std.specs.Prelude.{◌≡◌};
ghost use Rattle.kept_answers.specs.Differs.{is_answered_by, listing_differs};

use crate::parts::list_end;
use listing::reader::answer_text;
use text::same_text;
use words::word_at;

// Whether the lines that answer a listing are these.
fn is_answered_by(text: &[u8], lines: &[u8]) -> bool
    ensures { result ≡ is_answered_by text.now lines.now }
{
    let mut out = [0u8; 65536];
    let used = answer_text(text, &mut out);
    same_text(&out[..used], lines)
}

// Whether a listing comes out otherwise than its record says.
pub fn differs(kept: &[u8]) -> bool
    ensures { result ≡ listing_differs kept.now }
{
    if kept.len() < 32 {
        return true;
    }
    let a = list_end(kept, 32, word_at(kept, 2));
    let b = list_end(kept, a, word_at(kept, 3));
    !is_answered_by(&kept[32..a], &kept[a..b])
}
