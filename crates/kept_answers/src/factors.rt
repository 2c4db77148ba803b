// Factor calls: 14 words, then both lists.
ghost use Rattle.std.specs.Prelude.{◌≡◌};
ghost use Rattle.kept_answers.specs.Differs.{is_factor, factor_kept, factor_differs};

use crate::parts::{list_end, surface_at};
use objects::answers::Refusal;
use shading::step::factor_call;
use std::num::f64_to_bits_with_nan;
use words::{double_at, word_at};

fn is_answer(kept: &[u8], number: u64, factor: f64) -> bool
    ensures { result ≡ is_factor kept.now number factor }
{
    (word_at(kept, 12) == number) & (word_at(kept, 13) == f64_to_bits_with_nan(factor))
}

// Whether an answer that is a factor or a refusal is the record's, in its words 12 and 13.
pub fn answers(kept: &[u8], answer: Result<f64, Refusal>) -> bool
    ensures { result ≡ factor_kept kept.now answer }
{
    match answer {
        Ok(factor) => is_answer(kept, 0, factor),
        Err(refusal) => is_answer(kept, u64::from(refusal), 0.0),
    }
}

// Whether a factor call comes out otherwise than its record says.
pub fn differs(kept: &[u8]) -> bool
    ensures { result ≡ factor_differs kept.now }
{
    if kept.len() < 112 {
        return true;
    }
    let a = list_end(kept, 112, word_at(kept, 10));
    let b = list_end(kept, a, word_at(kept, 11));
    let answer = factor_call(
        word_at(kept, 2),
        double_at(kept, 3),
        double_at(kept, 4),
        surface_at(kept, 5),
        &kept[112..a],
        &kept[a..b],
    );
    !answers(kept, answer)
}
