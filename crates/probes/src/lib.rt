// The functions of the lower crates, exported for the comparison with the Rust and for the benchmark. No customer links this crate.
#![tactic(auto)]

ghost use Rattle.std.specs.Prelude.{◌≡◌};
ghost use Rattle.doubles.specs.Functions.{min_of2, max_of2, float_min, float_max, floor_of, cube_of, to_radians, to_degrees};
ghost use Rattle.roots.specs.Root.{square_root};
ghost use Rattle.angles.specs.Sine.{sine, cosine, tangent};
ghost use Rattle.arcsines.specs.Arcsine.{arcsine, arccosine};
ghost use Rattle.powers.specs.Power.{pow_minus1253};
ghost use Rattle.words.specs.Words.{word_count, word_at, put_word, double_at, put_double};
ghost use Rattle.hexadecimal.specs.Hexadecimal.{digits_at, put_digits};
ghost use Rattle.probes.specs.Answers.{digits_answer};

pub mod sky;

// The smaller, or the second where the comparison fails.
#[unsafe(no_mangle)]
pub extern "C" fn probe_min_of_2(a: f64, b: f64) -> f64
    ensures { result ≡ min_of2 a b }
{
    doubles::min_of_2(a, b)
}

// The larger, or the second where the comparison fails.
#[unsafe(no_mangle)]
pub extern "C" fn probe_max_of_2(a: f64, b: f64) -> f64
    ensures { result ≡ max_of2 a b }
{
    doubles::max_of_2(a, b)
}

// The smaller; a NaN is dropped.
#[unsafe(no_mangle)]
pub extern "C" fn probe_float_min(a: f64, b: f64) -> f64
    ensures { result ≡ float_min a b }
{
    doubles::float_min(a, b)
}

// The larger; a NaN is dropped.
#[unsafe(no_mangle)]
pub extern "C" fn probe_float_max(a: f64, b: f64) -> f64
    ensures { result ≡ float_max a b }
{
    doubles::float_max(a, b)
}

// The largest whole number that is not above x.
#[unsafe(no_mangle)]
pub extern "C" fn probe_floor(x: f64) -> f64
    ensures { result ≡ floor_of x }
{
    doubles::floor(x)
}

// (x·x)·x.
#[unsafe(no_mangle)]
pub extern "C" fn probe_cube(x: f64) -> f64
    ensures { result ≡ cube_of x }
{
    doubles::cube(x)
}

// By degrees.
#[unsafe(no_mangle)]
pub extern "C" fn probe_to_radians(x: f64) -> f64
    ensures { result ≡ to_radians x }
{
    doubles::to_radians(x)
}

// By radians.
#[unsafe(no_mangle)]
pub extern "C" fn probe_to_degrees(x: f64) -> f64
    ensures { result ≡ to_degrees x }
{
    doubles::to_degrees(x)
}

// Whole words of 8 bytes.
#[unsafe(no_mangle)]
pub extern "C" fn probe_word_count(bytes: &[u8]) -> usize
    ensures { result ≡ word_count bytes.now }
{
    words::word_count(bytes)
}

// The k-th word, and 0 where there is none.
#[unsafe(no_mangle)]
pub extern "C" fn probe_word_at(bytes: &[u8], k: usize) -> u64
    ensures { result ≡ word_at bytes.now k }
{
    words::word_at(bytes, k)
}

// The k-th word as a double.
#[unsafe(no_mangle)]
pub extern "C" fn probe_double_at(bytes: &[u8], k: usize) -> f64
    ensures { result ≡ double_at bytes.now k }
{
    words::double_at(bytes, k)
}

// Stores the k-th word, where there is one.
#[unsafe(no_mangle)]
pub extern "C" fn probe_store_word(bytes: &mut [u8], k: usize, w: u64)
    ensures { bytes.new ≡ put_word bytes.old k w }
{
    words::store_word(bytes, k, w);
}

// Stores a double as the k-th word, where there is one.
#[unsafe(no_mangle)]
pub extern "C" fn probe_store_double(bytes: &mut [u8], k: usize, x: f64)
    ensures { bytes.new ≡ put_double bytes.old k x }
{
    words::store_double(bytes, k, x);
}

// found is 1 with the word, or 0 with 0: a C struct, since an Option does not cross to C.
#[repr(C)]
#[derive(Clone, Copy)]
pub struct ProbeDigits {
    pub found: u64,
    pub word: u64,
}

// The sixteen hexadecimal digits from a place on.
#[unsafe(no_mangle)]
pub extern "C" fn probe_digits_at(text: &[u8], at: usize) -> ProbeDigits
    ensures { result ≡ digits_answer (digits_at text.now at) }
{
    match hexadecimal::digits_at(text, at) {
        Some(word) => ProbeDigits { found: 1, word },
        None => ProbeDigits { found: 0, word: 0 },
    }
}

// Stores sixteen hexadecimal digits from a place on.
#[unsafe(no_mangle)]
pub extern "C" fn probe_store_digits(text: &mut [u8], at: usize, w: u64)
    ensures { text.new ≡ put_digits text.old at w }
{
    hexadecimal::store_digits(text, at, w);
}

// The double nearest to the root.
#[unsafe(no_mangle)]
pub extern "C" fn probe_sqrt(x: f64) -> f64
    ensures { result ≡ square_root x }
{
    roots::sqrt(x)
}

// By radians.
#[unsafe(no_mangle)]
pub extern "C" fn probe_sin(a: f64) -> f64
    ensures { result ≡ sine a }
{
    angles::sin(a)
}

// By radians.
#[unsafe(no_mangle)]
pub extern "C" fn probe_cos(a: f64) -> f64
    ensures { result ≡ cosine a }
{
    angles::cos(a)
}

#[repr(C)]
#[derive(Clone, Copy)]
pub struct ProbeSinCos {
    pub sin: f64,
    pub cos: f64,
}

// Both, by radians.
#[unsafe(no_mangle)]
pub extern "C" fn probe_sin_cos(a: f64) -> ProbeSinCos
    ensures { (result.sin ≡ sine a) × (result.cos ≡ cosine a) }
{
    let both = angles::sin_cos(a);
    ProbeSinCos {
        sin: both.sin,
        cos: both.cos,
    }
}

// By radians.
#[unsafe(no_mangle)]
pub extern "C" fn probe_tan(a: f64) -> f64
    ensures { result ≡ tangent a }
{
    angles::tan(a)
}

// Radians.
#[unsafe(no_mangle)]
pub extern "C" fn probe_asin(a: f64) -> f64
    ensures { result ≡ arcsine a }
{
    arcsines::asin(a)
}

// Radians.
#[unsafe(no_mangle)]
pub extern "C" fn probe_acos(a: f64) -> f64
    ensures { result ≡ arccosine a }
{
    arcsines::acos(a)
}

// u to the −1.253, for u from 3 to 14.
#[unsafe(no_mangle)]
pub extern "C" fn probe_pow_minus_1_253(u: f64) -> f64
    ensures { result ≡ pow_minus1253 u }
{
    powers::pow_minus_1_253(u)
}
