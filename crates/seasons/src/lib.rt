// Trees in leaf: which days are, and the list of sectors for a day. Days count from 0.
#![tactic(auto)]

pub mod leaf;
pub mod table;

ghost use Rattle.std.specs.Prelude.{◌≡◌};
ghost use Rattle.seasons.specs.Seasons.{in_leaf, whole_records, sectors_for};

// Whether a day is from the first to the last leaf day or, where these are turned, from the first on or up to the last.
pub fn in_leaf(first: u64, last: u64, day: u64) -> bool
    ensures { result ≡ in_leaf first last day }
{
    if first <= last {
        return (first <= day) & (day <= last);
    }
    (first <= day) | (day <= last)
}

// All whole records of a list of sectors.
fn whole_records(list: &[u8]) -> &[u8]
    ensures { result.now ≡ whole_records list.now }
{
    let n = list.len() / 216 * 216;
    &list[..n]
}

// The list for a day: a part of the summer list or of the winter list.
pub fn sectors_for<'a>(
    summer: &'a [u8],
    winter: &'a [u8],
    first: u64,
    last: u64,
    day: u64,
) -> &'a [u8]
    ensures { result.now ≡ sectors_for summer.now winter.now first last day }
{
    if in_leaf(first, last, day) {
        return whole_records(summer);
    }
    whole_records(winter)
}
