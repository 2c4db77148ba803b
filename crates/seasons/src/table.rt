// The sectors of a season in a table, which is kept from day to day.
ghost use Rattle.std.specs.Prelude.{◌≡◌};
ghost use Rattle.seasons.specs.Table.{table_sectors};

use objects::sectors::ShadingSegment;

// Whether it is summer's, how many sectors there are, and the sectors. The library has no heap: `sectors` gives those that count of 36 places.
#[derive(Clone, Copy)]
pub struct SeasonTable {
    pub summer: bool,
    pub count: usize,
    pub places: [ShadingSegment; 36],
}

impl SeasonTable {
    // The season's sectors.
    #[tactic(auto, unfolding(crate::specs::Table::table_sectors))]
    pub fn sectors(&self) -> &[ShadingSegment]
        ensures { result.now ≡ table_sectors self.now }
    {
        &self.places[..self.count.min(self.places.len())]
    }
}
