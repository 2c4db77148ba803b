// Refusal 4: whether the lists of shading objects are in their ranges. Tests of values are joined without branches.
#![tactic(auto)]

ghost use Rattle.std.specs.Prelude.{◌≡◌, ℕ, Bool, List, length, ◌+◌, ◌*◌, ◌/◌, ◌^◌, ◌≤◌, ◌<◌};
ghost use Rattle.words.specs.Lists.{first_fine};
ghost use Rattle.object_checks.specs.Checks.{records_fine, window_values_fine, window_record_fine, window_fine};
ghost use Rattle.object_checks.specs.Checks.{object_values_fine, object_fine, counted_fine, words_zero, triple_fine, bounds_fine, sector_record_fine, sectors_fine};
ghost use Rattle.objects.specs.Records.{sector_count};
ghost use Rattle.words.specs.Words.{word_count};

pub mod lists;

use words::{double_at, double_within, word_at, word_within};

// Whether the first n places pass a test. An accepted list is looked at to its end in any case, so this does not stop early.
fn all_first<F: Fn(usize) -> bool>(n: usize, test: F) -> bool
    requires { (i : ℕ) → i < n → F.pre test i }
    ensures { (fine : ℕ → Bool) → ((i : ℕ) → i < n → (passed : Bool) → F.post test i passed → passed ≡ fine i) → result ≡ first_fine fine n }
{
    let mut all = true;
    for i in 0..n {
        all = test(i) & all;
    }
    all
}

// Whether a list has whole records of `size` bytes only, at most `most` of them, and each passes a test.
fn records_fine<F: Fn(usize) -> bool>(bytes: &[u8], size: usize, most: usize, test: F) -> bool
    requires some { 0 < size }
    requires fits { most * size < 2 ^ 64 }
    requires callable { length bytes.now ≤ most * size → (i : ℕ) → i < length bytes.now / size → F.pre test i }
    ensures { (fine : List ℕ → ℕ → Bool) → ((i : ℕ) → i < length bytes.now / size → (passed : Bool) → F.post test i passed → passed ≡ fine bytes.now i) → result ≡ records_fine size most fine bytes.now }
{
    if bytes.len() % size != 0 {
        return false;
    }
    if most * size < bytes.len() {
        return false;
    }
    all_first(bytes.len() / size, test)
}

fn window_values_fine(kind: u64, size: f64, distance: f64, transparency: f64, spare: u64) -> bool
    ensures { result ≡ window_values_fine kind size distance transparency spare }
{
    let size_fine = (0.0 < size) & (size <= 1000.0);
    let distance_fine = (0.0 <= distance) & (distance <= 10000.0);
    let obstacle = (kind == 0) & ((0.0 <= transparency) & (transparency <= 1.0));
    let other = (1 <= kind) & (kind <= 4) & (spare == 0);
    size_fine & distance_fine & (obstacle | other)
}

fn window_record_fine(bytes: &[u8], i: usize) -> bool
    requires { i < 16 }
    ensures { result ≡ window_record_fine bytes.now i }
{
    let k = 4 * i;
    let kind = word_at(bytes, k);
    let size = double_at(bytes, k + 1);
    let distance = double_at(bytes, k + 2);
    let transparency = double_at(bytes, k + 3);
    let spare = word_at(bytes, k + 3);
    window_values_fine(kind, size, distance, transparency, spare)
}

pub fn window_fine(bytes: &[u8]) -> bool
    ensures { result ≡ window_fine bytes.now }
{
    records_fine(bytes, 32, 16, |i| window_record_fine(bytes, i))
}

fn object_values_fine(kind: u64, height: f64, distance: f64) -> bool
    ensures { result ≡ object_values_fine kind height distance }
{
    let height_fine = (0.0 < height) & (height <= 1000.0);
    let distance_fine = (0.0 < distance) & (distance <= 10000.0);
    (kind <= 1) & height_fine & distance_fine
}

#[tactic(auto, unfolding(words::specs::Words::word_count))]
fn object_fine(bytes: &[u8], k: usize) -> bool
    requires { k + 2 < word_count bytes.now }
    ensures { result ≡ object_fine bytes.now k }
{
    object_values_fine(
        word_within(bytes, k),
        double_within(bytes, k + 1),
        double_within(bytes, k + 2),
    )
}

// The first n of the eight triples from word k on.
#[tactic(auto, unfolding(words::specs::Words::word_count))]
fn counted_fine(bytes: &[u8], k: usize, n: usize) -> bool
    requires { (n ≤ 8) × (k + 23 < word_count bytes.now) }
    ensures { result ≡ counted_fine bytes.now k n }
{
    all_first(n, |j| object_fine(bytes, k + 3 * j))
}

// Whether n words from the k-th on are zero.
#[tactic(auto, unfolding(words::specs::Words::word_count))]
fn words_zero(bytes: &[u8], k: usize, n: usize) -> bool
    requires { k + n ≤ word_count bytes.now }
    ensures { result ≡ words_zero bytes.now k n }
{
    all_first(n, |j| word_within(bytes, k + j) == 0)
}

// The eight triples from word k on: the counted ones, and the words behind them, which the compiler tests two at a time.
#[tactic(auto, unfolding(words::specs::Words::word_count))]
fn triples_fine(bytes: &[u8], count: u64, k: usize) -> bool
    requires { k + 23 < word_count bytes.now }
    ensures { result ≡ first_fine (triple_fine bytes.now count k) 8 }
{
    let n = objects::counted_places(count, 8);
    counted_fine(bytes, k, n) & words_zero(bytes, k + 3 * n, 24 - 3 * n)
}

fn bounds_fine(start360: f64, end360: f64, count: u64) -> bool
    ensures { result ≡ bounds_fine start360 end360 count }
{
    let start_fine = (0.0 <= start360) & (start360 <= 360.0);
    let end_fine = (0.0 <= end360) & (end360 <= 360.0);
    start_fine & end_fine & (count <= 8)
}

#[tactic(auto, unfolding(words::specs::Words::word_count, objects::specs::Records::sector_count))]
fn sector_record_fine(bytes: &[u8], i: usize) -> bool
    requires { i < sector_count bytes.now }
    ensures { result ≡ sector_record_fine bytes.now i }
{
    let k = 27 * i;
    let count = word_within(bytes, k + 2);
    bounds_fine(double_within(bytes, k), double_within(bytes, k + 1), count)
        & triples_fine(bytes, count, k + 3)
}

#[tactic(auto, unfolding(words::specs::Words::word_count, objects::specs::Records::sector_count))]
pub fn sectors_fine(bytes: &[u8]) -> bool
    ensures { result ≡ sectors_fine bytes.now }
{
    records_fine(bytes, 216, 36, |i| sector_record_fine(bytes, i))
}
