//! Cuts bytes into lines, and gives a line's text: the line without its end, which is LF, or CR and LF.
ghost use Rattle.std.specs.Prelude.{◌≡◌, ◌≤◌, ◌+◌, ◌∷◌, length};
ghost use Rattle.std.specs.Option.{option_map};
ghost use Rattle.script.specs.Lines.{lines_of, without_last, or_these, carriage_return, text_of};

use rl_base::LF;

const CR: u8 = b'\r';

fn without_last(mark: u8, bytes: &[u8]) -> Option<&[u8]>
    ensures { option_map (λ front. front.now) result ≡ without_last mark bytes.now }
{
    match bytes {
        [] => None,
        [front @ .., last] => {
            if *last != mark {
                return None;
            }
            Some(front)
        }
    }
}

fn without_return(front: &[u8]) -> &[u8]
    ensures { result.now ≡ or_these front.now (without_last carriage_return front.now) }
{
    match without_last(CR, front) {
        Some(text) => text,
        None => front,
    }
}

/// A line without its end: the LF, and a CR before it.
#[tactic(auto, unfolding(crate::specs::Lines::text_of))]
pub(crate) fn text_of(line: &[u8]) -> &[u8]
    ensures { result.now ≡ text_of line.now }
{
    match without_last(LF, line) {
        Some(front) => without_return(front),
        None => line,
    }
}

/// The first line with its LF, and the bytes behind it.
pub(crate) fn cut_line(bytes: &[u8]) -> (&[u8], &[u8])
    requires some { 1 ≤ length bytes.now }
    ensures lines { lines_of bytes.now ≡ result.0.now ∷ lines_of result.1.now }
    ensures size { length result.0.now + length result.1.now ≡ length bytes.now }
    ensures some_line { 1 ≤ length result.0.now }
{
    for (at, byte) in bytes.iter().enumerate() {
        if *byte == LF {
            return (&bytes[..at + 1], &bytes[at + 1..]);
        }
    }
    (bytes, &bytes[bytes.len()..])
}
