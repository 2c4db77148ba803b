// The records of the lent lists, read into structs by value.
ghost use Rattle.std.specs.Prelude.{◌≡◌, ◌+◌, ◌≤◌, ◌<◌, replicate};
ghost use Rattle.words.specs.Words.{word_count};
ghost use Rattle.objects.specs.Records.{distant_kind, object_at, segment_at, sector_count, Readable, no_segment, sector_places};
ghost use Rattle.objects.specs.Records.{window_kind, window_object_at, window_count, no_window_object, window_of};

use crate::sectors::{ShadingObject, ShadingObjectType, ShadingSegment};
use crate::window::{WindowShading, WindowShadingObject, WindowShadingType};
use words::{double_at, number_within, word_at, word_count, word_within};

// What stands in a place that no object or sector has.
const NO_OBJECT: ShadingObject = ShadingObject {
    object_type: ShadingObjectType::Obstacle,
    height: 0.0,
    distance: 0.0,
};

const NO_SEGMENT: ShadingSegment = ShadingSegment {
    start360: 0.0,
    end360: 0.0,
    count: 0,
    shading_objects: [NO_OBJECT; 8],
};

const NO_WINDOW_OBJECT: WindowShadingObject = WindowShadingObject {
    object_type: WindowShadingType::Obstacle,
    size: 0.0,
    distance: 0.0,
    transparency: 0.0,
};

// By a record's word: any number but 0 is an overhang's.
impl From<u64> for ShadingObjectType {
    ghost from_gives = { λ kind made. made ≡ distant_kind kind };

    #[tactic(auto, unfolding(crate::specs::Records::distant_kind))]
    fn from(kind: u64) -> Self {
        match kind {
            0 => ShadingObjectType::Obstacle,
            _ => ShadingObjectType::Overhang,
        }
    }
}

// The triple from word k on. `Readable` and the bounds of a place stand at the leaves and in `find_segment`: others go by `Sectors` of
// `object_checks`, whose invariant gives them.
#[tactic(auto, unfolding(words::specs::Words::word_count))]
fn object_at(bytes: &[u8], k: usize) -> ShadingObject
    requires readable { Readable bytes.now }
    requires k_bound { k + 2 < word_count bytes.now }
    ensures { result ≡ object_at bytes.now k }
{
    ShadingObject {
        object_type: ShadingObjectType::from(word_within(bytes, k)),
        height: number_within(bytes, k + 1),
        distance: number_within(bytes, k + 2),
    }
}

// The i-th sector of a checked list. One way through without a test, which the compiler can put where the record goes.
#[tactic(auto, unfolding(crate::specs::Records::sector_count))]
pub fn segment_at(bytes: &[u8], i: usize) -> ShadingSegment
    requires readable { Readable bytes.now }
    requires i_bound { i < sector_count bytes.now }
    ensures { result ≡ segment_at bytes.now i }
{
    let k = 27 * i;
    let start360 = number_within(bytes, k);
    let end360 = number_within(bytes, k + 1);
    let count = word_within(bytes, k + 2);
    let first = k + 3;
    let shading_objects = [
        object_at(bytes, first + 0),
        object_at(bytes, first + 3),
        object_at(bytes, first + 6),
        object_at(bytes, first + 9),
        object_at(bytes, first + 12),
        object_at(bytes, first + 15),
        object_at(bytes, first + 18),
        object_at(bytes, first + 21),
    ];
    ShadingSegment {
        start360,
        end360,
        count,
        shading_objects,
    }
}

// How many sectors a list has.
pub fn sector_count(bytes: &[u8]) -> usize
    ensures { result ≡ sector_count bytes.now }
{
    word_count(bytes) / 27
}

// What stands in a place that no sector has.
pub fn no_segment() -> ShadingSegment
    ensures { result ≡ no_segment }
{
    NO_SEGMENT
}

// A table without a sector. By a function, so that the compiler clears it in one go.
pub fn no_sectors() -> [ShadingSegment; 36]
    ensures { result ≡ replicate 36 no_segment }
{
    [NO_SEGMENT; 36]
}

// The first n sectors of a checked list, read into a table.
pub fn sectors_of(bytes: &[u8], n: usize) -> [ShadingSegment; 36]
    requires readable { Readable bytes.now }
    requires n_bound { n ≤ sector_count bytes.now }
    ensures { result ≡ sector_places bytes.now n }
{
    let mut places = no_sectors();
    for i in 0..n {
        places[i] = segment_at(bytes, i);
    }
    places
}

// By a record's word: any number from 4 on is a reveal's.
impl From<u64> for WindowShadingType {
    ghost from_gives = { λ kind made. made ≡ window_kind kind };

    #[tactic(auto, unfolding(crate::specs::Records::window_kind))]
    fn from(kind: u64) -> Self {
        match kind {
            0 => WindowShadingType::Obstacle,
            1 => WindowShadingType::Overhang,
            2 => WindowShadingType::SideFinRight,
            3 => WindowShadingType::SideFinLeft,
            _ => WindowShadingType::Reveal,
        }
    }
}

fn window_object_at(bytes: &[u8], i: usize) -> WindowShadingObject
    requires { i < 16 }
    ensures { result ≡ window_object_at bytes.now i }
{
    let k = 4 * i;
    let object_type = WindowShadingType::from(word_at(bytes, k));
    let size = double_at(bytes, k + 1);
    let distance = double_at(bytes, k + 2);
    let transparency = double_at(bytes, k + 3);
    WindowShadingObject {
        object_type,
        size,
        distance,
        transparency,
    }
}

// One of this kind is not generic with `no_sectors`: a table comes from a function of its own, so that the compiler clears it in one go.
fn no_window_objects() -> [WindowShadingObject; 16]
    ensures { result ≡ replicate 16 no_window_object }
{
    [NO_WINDOW_OBJECT; 16]
}

// The objects of a checked window list.
pub fn window_of(bytes: &[u8]) -> WindowShading
    requires { window_count bytes.now ≤ 16 }
    ensures { result ≡ window_of bytes.now }
{
    let n = word_count(bytes) / 4;
    let mut window = WindowShading {
        count: n as u64,
        objects: no_window_objects(),
    };
    for i in 0..n {
        window.objects[i] = window_object_at(bytes, i);
    }
    window
}
