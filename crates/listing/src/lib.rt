// The shade listing: lines of ten values in, lines with a number and a factor out.
#![tactic(auto, unfolding(crate::specs::Listing::names, crate::specs::Reading::line_start, crate::specs::Reading::with_part, crate::specs::Reading::after, crate::specs::Reading::printed, crate::specs::Reading::wants_more, crate::specs::Reading::line_over, text::specs::Text::ascii))]

pub mod reader;
