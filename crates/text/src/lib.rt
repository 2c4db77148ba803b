// Pieces of text.
#![tactic(auto)]

ghost use Rattle.std.specs.Prelude.{◌≡◌};
ghost use Rattle.text.specs.Text.{same_text, filled, used_after, line_end};

// The place of the first line feed.
pub fn line_end(piece: &[u8]) -> Option<usize>
    ensures { result ≡ line_end piece.now }
{
    piece.iter().position(|b| *b == b'\n')
}

// Puts as much of a part behind the first `count` bytes of a list as there is room for. Answers how many there are then.
pub fn append(list: &mut [u8], count: usize, part: &[u8]) -> usize
    ensures { (result ≡ used_after list.old count part.now)
        × (list.new ≡ filled list.old count part.now) }
{
    if list.len() <= count {
        return count;
    }
    let n = part.len().min(list.len() - count);
    list[count..count + n].copy_from_slice(&part[..n]);
    count + n
}

// As many bytes, and the same.
pub fn same_text(a: &[u8], b: &[u8]) -> bool
    ensures { result ≡ same_text a.now b.now }
{
    a == b
}
