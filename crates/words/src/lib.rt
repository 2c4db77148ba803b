// Words of eight bytes and doubles in lent lists of bytes. Every function is total, but for those that end in `within`: what lies
// outside the list reads as 0, and is not written.
#![tactic(auto, unfolding(crate::specs::Words::word_count, crate::specs::Words::word_at, crate::specs::Words::put_word, crate::specs::Words::double_at, crate::specs::Words::put_double))]

ghost use Rattle.std.specs.Prelude.{◌≡◌, not, ◌<◌, T};
ghost use Rattle.std.specs.Float.{binary64};
ghost use Rattle.std.specs.Float.Ieee.{is_nan, of_bits, to_bits};
ghost use Rattle.words.specs.Words.{word_count, word_at, put_word, double_at, put_double};

use std::num::{f64_from_bits_with_nan, f64_to_bits_with_nan};

// How many whole words there are.
pub fn word_count(bytes: &[u8]) -> usize
    ensures { result ≡ word_count bytes.now }
{
    bytes.len() / 8
}

// The k-th word of a list that has it. The pairs with and without a test differ in what they ask; a type for a place in a list would hold
// both, and callers step from word to word.
pub fn word_within(bytes: &[u8], k: usize) -> u64
    requires { k < word_count bytes.now }
    ensures { result ≡ word_at bytes.now k }
{
    let word = bytes.as_chunks::<8>().0[k];
    u64::from_le_bytes(word)
}

// The k-th word, and 0 where there is no such whole word.
pub fn word_at(bytes: &[u8], k: usize) -> u64
    ensures { result ≡ word_at bytes.now k }
{
    if k < word_count(bytes) {
        word_within(bytes, k)
    } else {
        0
    }
}

// Writes w as the k-th word of a list that has it.
pub fn store_word_within(bytes: &mut [u8], k: usize, w: u64)
    requires { k < word_count bytes.old }
    ensures { bytes.new ≡ put_word bytes.old k w }
{
    let word = w.to_le_bytes();
    bytes[8 * k..8 * k + 8].copy_from_slice(&word);
}

// Writes w as the k-th word; where there is no such whole word nothing is written.
pub fn store_word(bytes: &mut [u8], k: usize, w: u64)
    ensures { bytes.new ≡ put_word bytes.old k w }
{
    if k < word_count(bytes) {
        store_word_within(bytes, k, w);
    }
}

// The k-th word's double.
pub fn double_at(bytes: &[u8], k: usize) -> f64
    ensures { result ≡ double_at bytes.now k }
{
    f64_from_bits_with_nan(word_at(bytes, k))
}

// The double of the k-th word of a list that has it.
pub fn double_within(bytes: &[u8], k: usize) -> f64
    requires { k < word_count bytes.now }
    ensures { result ≡ double_at bytes.now k }
{
    f64_from_bits_with_nan(word_within(bytes, k))
}

// The same, where that double is no NaN: nothing is left to test.
pub fn number_within(bytes: &[u8], k: usize) -> f64
    requires { (k < word_count bytes.now) × T (not (is_nan (double_at bytes.now k))) }
    ensures { result ≡ double_at bytes.now k }
{
    f64::from_bits(word_within(bytes, k))
}

// Writes the bits of x as the k-th word.
pub fn store_double(bytes: &mut [u8], k: usize, x: f64)
    ensures { bytes.new ≡ put_double bytes.old k x }
{
    store_word(bytes, k, f64_to_bits_with_nan(x));
}

// The same in a list that has it.
pub fn store_double_within(bytes: &mut [u8], k: usize, x: f64)
    requires { k < word_count bytes.old }
    ensures { bytes.new ≡ put_double bytes.old k x }
{
    store_word_within(bytes, k, f64_to_bits_with_nan(x));
}
