// The surface and what may shade it: as structs, and as records of the lent lists.
#![tactic(auto)]

ghost use Rattle.std.specs.Prelude.{◌≡◌, min, take};

pub mod answers;
pub mod records;
pub mod sectors;
pub mod surface;
pub mod window;

// How many of a list's places are counted.
pub fn counted_places(count: u64, places: u64) -> usize
    ensures { result ≡ min count places }
{
    count.min(places) as usize
}

// The counted ones of a list's places.
fn counted_of<T>(places: &[T], count: u64) -> &[T]
    ensures { result.now ≡ take count places.now }
{
    &places[..counted_places(count, places.len() as u64)]
}
