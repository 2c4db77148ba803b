// Where the parts of a record lie.
ghost use Rattle.std.specs.Prelude.{◌≡◌, ◌<◌, ◌≤◌, length};
ghost use Rattle.words.specs.Words.{word_at};
ghost use Rattle.kept_answers.specs.KeptRecords.{list_end, record_end, surface_at};

use objects::surface::Surface;
use words::{double_at, word_at};

// Where a list of that many bytes ends; the end of all where there are fewer.
pub fn list_end(bytes: &[u8], at: usize, size: u64) -> usize
    requires { at ≤ length bytes.now }
    ensures { result ≡ list_end bytes.now at size }
{
    if size <= (bytes.len() - at) as u64 {
        return at + size as usize;
    }
    bytes.len()
}

// The record's second word: how many bytes it has.
fn record_size(kept: &[u8]) -> u64
    ensures { result ≡ word_at kept.now 1 }
{
    word_at(kept, 1)
}

// Where the record that starts at that place ends; the end of the block where its size cannot be. It is never empty.
pub fn record_end(block: &[u8], at: usize) -> usize
    requires { at < length block.now }
    ensures value { result ≡ record_end block.now at }
    ensures within { (at < result) × (result ≤ length block.now) }
{
    let size = record_size(&block[at..]);
    if size == 0 {
        return block.len();
    }
    list_end(block, at, size)
}

// A surface from the k-th word on.
pub fn surface_at(kept: &[u8], k: usize) -> Surface
    requires { k ≤ 15 }
    ensures { result ≡ surface_at kept.now k }
{
    Surface {
        tilt: double_at(kept, k),
        orientation: double_at(kept, k + 1),
        base_height: double_at(kept, k + 2),
        height: double_at(kept, k + 3),
        width: double_at(kept, k + 4),
    }
}
