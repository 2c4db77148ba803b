// The table of days, behind the record's two words.
ghost use Rattle.std.specs.Prelude.{◌≡◌};
ghost use Rattle.kept_answers.specs.Differs.{table_differs};

use days::table::fill_days;
use text::same_text;

// Whether the table is filled otherwise than its record says.
pub fn differs(kept: &[u8]) -> bool
    ensures { result ≡ table_differs kept.now }
{
    if kept.len() < 16 {
        return true;
    }
    let mut days = [0xA5u8; 8784];
    fill_days(&mut days);
    !same_text(&days, &kept[16..])
}
