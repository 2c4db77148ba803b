// Lines that are printed.
ghost use Rattle.std.specs.Prelude.{◌≡◌, ◌<◌, [], Ok, Err};
ghost use Rattle.lines.specs.Line.{numeral, output_line, bytes_of};

use objects::answers::Refusal;
use std::num::f64_to_bits_with_nan;
use text::append;

// A line with its line feed, or none: the first `count` bytes. An array and no `ArrayVec`, which cannot be copied.
#[derive(Clone, Copy)]
pub struct OutputLine {
    pub count: usize,
    pub bytes: [u8; 19],
}

impl OutputLine {
    // No line.
    pub fn nothing() -> Self
        ensures { bytes_of result ≡ [] }
    {
        OutputLine {
            count: 0,
            bytes: [0; 19],
        }
    }

    // The counted bytes.
    pub fn as_slice(&self) -> &[u8]
        ensures { result.now ≡ bytes_of self.now }
    {
        &self.bytes[..self.count.min(self.bytes.len())]
    }
}

fn factor_line(x: f64) -> OutputLine
    ensures { bytes_of result ≡ output_line (Ok x) }
{
    let mut bytes = *b"0                 \n";
    hexadecimal::store_digits(&mut bytes, 2, f64_to_bits_with_nan(x));
    OutputLine { count: 19, bytes }
}

// The decimal digits of a number below 100, put into the line itself.
fn numeral(n: u64) -> OutputLine
    requires { n < 100 }
    ensures { bytes_of result ≡ numeral n }
{
    let mut bytes = [0; 19];
    let mut count = 0;
    if 10 <= n {
        bytes[0] = b'0' + (n / 10) as u8;
        count = 1;
    }
    bytes[count] = b'0' + (n % 10) as u8;
    OutputLine {
        count: count + 1,
        bytes,
    }
}

fn refused_line(refusal: Refusal) -> OutputLine
    ensures { bytes_of result ≡ output_line (Err refusal) }
{
    let OutputLine { count, mut bytes } = numeral(u64::from(refusal));
    let count = append(&mut bytes, count, b" -\n");
    OutputLine { count, bytes }
}

// The line that answers one of the listing: its factor, or the number of its refusal.
pub fn output_line(answer: Result<f64, Refusal>) -> OutputLine
    ensures { bytes_of result ≡ output_line answer }
{
    match answer {
        Ok(x) => factor_line(x),
        Err(refusal) => refused_line(refusal),
    }
}
