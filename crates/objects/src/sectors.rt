// The sectors of the horizon, and the distant objects in them.
ghost use Rattle.std.specs.Prelude.{◌≡◌};
ghost use Rattle.objects.specs.Objects.{counted};

use crate::counted_of;

#[derive(Clone, Copy)]
pub enum ShadingObjectType {
    Obstacle,
    Overhang,
}

// A distant object of a sector. An overhang's height is that of its lower edge.
#[derive(Clone, Copy)]
pub struct ShadingObject {
    pub object_type: ShadingObjectType,
    pub height: f64,
    pub distance: f64,
}

// A part of the horizon, from start to end in degrees from north, with its first `count` objects.
// The library has no heap: a sector has eight places, and `objects` gives those that count.
#[derive(Clone, Copy)]
pub struct ShadingSegment {
    pub start360: f64,
    pub end360: f64,
    pub count: u64,
    pub shading_objects: [ShadingObject; 8],
}

impl ShadingSegment {
    // The counted objects.
    #[tactic(auto, unfolding(crate::specs::Objects::counted))]
    pub fn objects(&self) -> &[ShadingObject]
        ensures { result.now ≡ counted self.now }
    {
        counted_of(&self.shading_objects, self.count)
    }
}
