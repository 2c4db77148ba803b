// The accepted lists of both seasons, and which days are in leaf.
ghost use Rattle.std.specs.Prelude.{◌≡◌, ◌&&◌, is_ok, MatchResult};
ghost use Rattle.objects.specs.declared.answers.Refusal.TheVariants.{Object};
ghost use Rattle.object_checks.specs.Checks.{sectors_fine};
ghost use Rattle.seasons.specs.Seasons.{in_leaf, sectors_for};
ghost use Rattle.seasons.specs.Table.{season_table};

use crate::table::SeasonTable;
use crate::{in_leaf, sectors_for};
use object_checks::lists::Sectors;
use objects::answers::Refusal;

// The first and the last leaf day count from 0.
#[derive(Clone, Copy)]
pub struct Seasons<'a> {
    pub summer: Sectors<'a>,
    pub winter: Sectors<'a>,
    pub first: u64,
    pub last: u64,
}

impl<'a> Seasons<'a> {
    // Both lists, each checked.
    pub fn check(
        summer: &'a [u8],
        winter: &'a [u8],
        first: u64,
        last: u64,
    ) -> Result<Seasons<'a>, Refusal>
        ensures accepts { is_ok result ≡ sectors_fine summer.now && sectors_fine winter.now }
        ensures gives { MatchResult result
            (λ s. (s.summer.bytes.now ≡ summer.now) × (s.winter.bytes.now ≡ winter.now) × (s.first ≡ first) × (s.last ≡ last))
            (λ refusal. refusal ≡ Object) }
    {
        let summer = Sectors::check(summer)?;
        let winter = Sectors::check(winter)?;
        Ok(Seasons {
            summer,
            winter,
            first,
            last,
        })
    }

    // Whether a day is in leaf.
    pub fn in_leaf(self, day: u64) -> bool
        ensures { result ≡ in_leaf self.entry.first self.entry.last day }
    {
        in_leaf(self.first, self.last, day)
    }

    // The list for a day: a part of the summer list or of the winter list.
    pub fn sectors(self, day: u64) -> Sectors<'a>
        ensures { result.bytes.now ≡ sectors_for self.entry.summer.bytes.now self.entry.winter.bytes.now self.entry.first self.entry.last day }
    {
        let (summer, winter) = (self.summer.bytes, self.winter.bytes);
        let bytes = sectors_for(summer, winter, self.first, self.last, day);
        Sectors { bytes }
    }

    // The table for a day.
    pub fn table(self, day: u32) -> SeasonTable
        ensures { result ≡ season_table (in_leaf self.entry.first self.entry.last day) self.entry.summer.bytes.now self.entry.winter.bytes.now }
    {
        let sectors = self.sectors(day as u64);
        SeasonTable {
            summer: self.in_leaf(day as u64),
            count: sectors.count(),
            places: sectors.table(),
        }
    }
}
