// Kept answers of the published Rust, held to those of the code. `oracle/README.md` has the records' format.
#![tactic(auto, unfolding(crate::specs::KeptRecords::record_end, crate::specs::KeptRecords::surface_at, crate::specs::Differs::leaf_differs, crate::specs::Differs::is_factor, crate::specs::Differs::factor_differs, crate::specs::Differs::glazing_of, crate::specs::Differs::strips_differs, crate::specs::Differs::is_answered_by, crate::specs::Differs::listing_differs, crate::specs::Differs::site_of, crate::specs::Differs::run_at, crate::specs::Differs::is_run, crate::specs::Differs::totals_kept, crate::specs::Differs::run_differs, crate::specs::Differs::table_differs, crate::specs::Differs::kind_differs, crate::specs::Differs::record_differs, crate::specs::Differs::series_kept, crate::specs::Differs::run_kept))]

ghost use Rattle.std.specs.Prelude.{◌≡◌};
ghost use Rattle.kept_answers.specs.Differs.{record_differs};

mod day_table;
mod factors;
mod leaves;
mod listings;
pub mod parts;
mod tall_glazing;
mod whole_runs;

use words::word_at;

// Whether a record's call answers otherwise. A record of no kind does too, and one that is cut short. Kinds are the numbers of the file's format.
pub fn differs(kept: &[u8]) -> bool
    ensures { result ≡ record_differs kept.now }
{
    if word_at(kept, 1) != kept.len() as u64 {
        return true;
    }
    match word_at(kept, 0) {
        1 => whole_runs::differs(kept),
        2 => factors::differs(kept),
        3 => leaves::differs(kept),
        4 => listings::differs(kept),
        5 => day_table::differs(kept),
        6 => tall_glazing::differs(kept),
        _ => true,
    }
}
