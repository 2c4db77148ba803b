// What comes out of a step, of the checks and of a run.
ghost use Rattle.std.specs.Prelude.{◌≡◌};

use objects::answers::Refusal;

// A step's six results, in the order in which they are stored.
#[derive(Clone, Copy)]
pub struct Row {
    pub altitude: f64,
    pub azimuth: f64,
    pub direct: f64,
    pub diffuse: f64,
    pub total: f64,
    pub factor: f64,
}

// What is kept of one day or of one month: how many steps start in it, the largest total among their rows (NaN while there is none)
// and the sum of factor times direct times step, in Wh/m².
#[derive(Clone, Copy)]
pub struct Totals {
    pub count: u64,
    pub largest: f64,
    pub sum: f64,
}

// What an accepted run comes to: its step count and the sum of factor times direct times step, in Wh/m².
#[derive(Clone, Copy)]
pub struct Accepted {
    pub count: u64,
    pub sum: f64,
}

// Why and at which step a run is turned down; the checks before the first step say step 0, as the C struct has it.
#[derive(Clone, Copy)]
pub struct RefusedAt {
    pub refusal: Refusal,
    pub step: u64,
}

// The checks before the first step turn a job down at step 0.
impl From<Refusal> for RefusedAt {
    ghost from_gives = { λ refusal fault. fault ≡ record { refusal = refusal; step = 0 } };

    fn from(refusal: Refusal) -> RefusedAt {
        RefusedAt { refusal, step: 0 }
    }
}
