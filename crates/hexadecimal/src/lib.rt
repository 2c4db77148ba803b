// Words as sixteen hexadecimal digits in lent lists of bytes. Every function is total: what lies outside the list reads as no digits,
// and is not written.
#![tactic(auto, unfolding(crate::specs::Hexadecimal::digit, crate::specs::Hexadecimal::digit_value, crate::specs::Hexadecimal::put_digits, crate::specs::Hexadecimal::digits_of, crate::specs::Hexadecimal::digits_at))]

ghost use Rattle.std.specs.Prelude.{◌≡◌, ◌%◌};
ghost use Rattle.hexadecimal.specs.Hexadecimal.{digit, digits_of, digit_value, read_digits, digits_at, put_digits};

// The digit of the lowest four bits of w, as an ASCII byte.
fn last_digit(w: u64) -> u8
    ensures { result ≡ digit (w % 16) }
{
    let d = (w % 16) as u8;
    if d < 10 { b'0' + d } else { b'A' + (d - 10) }
}

// The sixteen digits of w.
fn digits_of(w: u64) -> [u8; 16]
    ensures { result ≡ digits_of w }
{
    let mut digits = [b'0'; 16];
    let mut rest = w;
    for n in 0..16 {
        digits[15 - n] = last_digit(rest);
        rest /= 16;
    }
    digits
}

// Writes the sixteen digits of w from place `at` on; where fewer than sixteen bytes stand there nothing is written.
pub fn store_digits(text: &mut [u8], at: usize, w: u64)
    ensures { text.new ≡ put_digits text.old at w }
{
    if 16 <= text.len() && at <= text.len() - 16 {
        text[at..at + 16].copy_from_slice(&digits_of(w));
    }
}

// What the byte b counts as a digit.
fn digit_value(b: u8) -> Option<u64>
    ensures { result ≡ digit_value b }
{
    match b {
        b'0'..=b'9' => Some((b - b'0') as u64),
        b'A'..=b'F' => Some((b - b'A' + 10) as u64),
        _ => None,
    }
}

// The word that sixteen digits count.
fn word_of(digits: &[u8; 16]) -> Option<u64>
    ensures { result ≡ read_digits 0 digits.now }
{
    let mut word = 0;
    for b in digits {
        let d = digit_value(*b)?;
        word = 16 * word + d;
    }
    Some(word)
}

// The word whose sixteen digits stand from place `at` on.
pub fn digits_at(text: &[u8], at: usize) -> Option<u64>
    ensures { result ≡ digits_at text.now at }
{
    word_of(text.get(at..)?.first_chunk()?)
}
