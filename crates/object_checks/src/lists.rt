// The lent lists once they have passed their check: a value of these types is an accepted list.
ghost use Rattle.std.specs.Prelude.{◌≡◌, true, is_ok, ◌≤◌, ◌<◌, MatchResult};
ghost use Rattle.object_checks.specs.Checks.{sectors_fine, window_fine};
ghost use Rattle.objects.specs.Records.{sector_count, segment_at, sector_places, window_of};
ghost use Rattle.objects.specs.declared.answers.Refusal.TheVariants.{Object};

use crate::{sectors_fine, window_fine};
use objects::answers::Refusal;
use objects::records::{sector_count, sectors_of, segment_at, window_of};
use objects::sectors::ShadingSegment;
use objects::window::WindowShading;

// An accepted list of sectors.
#[derive(Clone, Copy)]
pub struct Sectors<'a> {
    pub bytes: &'a [u8],
    ghost fine: { sectors_fine bytes.now ≡ true },
}

impl<'a> Sectors<'a> {
    pub fn check(bytes: &'a [u8]) -> Result<Sectors<'a>, Refusal>
        ensures accepts { is_ok result ≡ sectors_fine bytes.now }
        ensures gives { MatchResult result (λ list. list.bytes.now ≡ bytes.now) (λ refusal. refusal ≡ Object) }
    {
        if sectors_fine(bytes) {
            return Ok(Sectors { bytes });
        }
        Err(Refusal::Object)
    }

    // How many sectors there are.
    pub fn count(self) -> usize
        ensures count { result ≡ sector_count self.entry.bytes.now }
        ensures few { result ≤ 36 }
    {
        sector_count(self.bytes)
    }

    // The i-th sector.
    pub fn at(self, i: usize) -> ShadingSegment
        requires { i < sector_count self.bytes.now }
        ensures { result ≡ segment_at self.entry.bytes.now i }
    {
        segment_at(self.bytes, i)
    }

    // All of them in a table.
    pub fn table(self) -> [ShadingSegment; 36]
        ensures { result ≡ sector_places self.entry.bytes.now (sector_count self.entry.bytes.now) }
    {
        sectors_of(self.bytes, self.count())
    }
}

// An accepted list of the objects at the window.
#[derive(Clone, Copy)]
pub struct Window<'a> {
    pub bytes: &'a [u8],
    ghost fine: { window_fine bytes.now ≡ true },
}

impl<'a> Window<'a> {
    pub fn check(bytes: &'a [u8]) -> Result<Window<'a>, Refusal>
        ensures accepts { is_ok result ≡ window_fine bytes.now }
        ensures gives { MatchResult result (λ list. list.bytes.now ≡ bytes.now) (λ refusal. refusal ≡ Object) }
    {
        if window_fine(bytes) {
            return Ok(Window { bytes });
        }
        Err(Refusal::Object)
    }

    // The objects.
    pub fn objects(self) -> WindowShading
        ensures { result ≡ window_of self.entry.bytes.now }
    {
        window_of(self.bytes)
    }
}
