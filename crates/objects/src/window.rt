// The objects at the window.
ghost use Rattle.std.specs.Prelude.{◌≡◌};
ghost use Rattle.objects.specs.Objects.{placed};

use crate::counted_of;

#[derive(Clone, Copy)]
pub enum WindowShadingType {
    Obstacle,
    Overhang,
    SideFinRight,
    SideFinLeft,
    Reveal,
}

// An object at the window. `size` is an obstacle's height and any other's depth; only an obstacle has a transparency.
#[derive(Clone, Copy)]
pub struct WindowShadingObject {
    pub object_type: WindowShadingType,
    pub size: f64,
    pub distance: f64,
    pub transparency: f64,
}

// The objects at the window: the first `count` of sixteen places, which `objects` gives. The library has no heap.
#[derive(Clone, Copy)]
pub struct WindowShading {
    pub count: u64,
    pub objects: [WindowShadingObject; 16],
}

impl WindowShading {
    // The counted objects.
    #[tactic(auto, unfolding(crate::specs::Objects::placed))]
    pub fn objects(&self) -> &[WindowShadingObject]
        ensures { result.now ≡ placed self.now }
    {
        counted_of(&self.objects, self.count)
    }
}
