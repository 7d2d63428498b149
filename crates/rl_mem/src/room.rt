//! Copies as many bytes as there is room for.

ghost use Rattle.std.specs.Prelude.{◌≡◌, ◌<◌, ◌≤◌, [], length, take};

/// Copies bytes from the front of `from` to the front of `into`, as many as both have, and says how many.
pub fn copy_front(from: &[u8], into: &mut [u8]) -> usize
    ensures within { result ≤ length into.new }
    ensures there { result ≤ length from.now }
    ensures given { take result into.new ≡ take result from.now }
    ensures end { result ≡ 0 → 0 < length into.new → from.now ≡ [] }
{
    let count = if from.len() < into.len() {
        from.len()
    } else {
        into.len()
    };
    into[..count].copy_from_slice(&from[..count]);
    count
}
