// The weather of a step: a value of each of the three series, which are lent as lists of words.
#![tactic(auto)]

ghost use Rattle.std.specs.Prelude.{◌≡◌};
ghost use Rattle.weather.specs.Weather.{reading_fine, in_series, read_series};

use words::{double_at, word_count};

// What a step reads: diffuse and direct irradiance in W/m², and the ground's reflectivity, a fraction.
#[derive(Clone, Copy)]
pub struct Reading {
    pub diffuse: f64,
    pub direct: f64,
    pub reflectivity: f64,
}

// Refusal 6: whether all three values are in their ranges.
pub fn reading_fine(reading: Reading) -> bool
    ensures { result ≡ reading_fine reading }
{
    let diffuse = (0.0 <= reading.diffuse) & (reading.diffuse <= 10000.0);
    let direct = (0.0 <= reading.direct) & (reading.direct <= 10000.0);
    let reflectivity = (0.0 <= reading.reflectivity) & (reading.reflectivity <= 1.0);
    diffuse & direct & reflectivity
}

// The three series as they are lent: lists of words, a value in each.
#[derive(Clone, Copy)]
pub struct Series<'a> {
    pub diffuse: &'a [u8],
    pub direct: &'a [u8],
    pub reflectivity: &'a [u8],
}

impl Series<'_> {
    // Refusal 5: whether all three have a value at an index.
    pub fn has_value_at(self, i: usize) -> bool
        ensures { result ≡ in_series self.entry.diffuse.now self.entry.direct.now self.entry.reflectivity.now i }
    {
        (i < word_count(self.diffuse))
            & (i < word_count(self.direct))
            & (i < word_count(self.reflectivity))
    }

    // The values of all three at an index; past the end a value is 0.
    pub fn reading_at(self, i: usize) -> Reading
        ensures { result ≡ read_series self.entry.diffuse.now self.entry.direct.now self.entry.reflectivity.now i }
    {
        Reading {
            diffuse: double_at(self.diffuse, i),
            direct: double_at(self.direct, i),
            reflectivity: double_at(self.reflectivity, i),
        }
    }
}
