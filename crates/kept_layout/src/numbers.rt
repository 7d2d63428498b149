//! Big-endian numbers at fixed places of bytes. A byte past the end counts as 0.
ghost use Rattle.std.specs.Prelude.{◌≡◌, drop, slice_index};
ghost use Rattle.std.specs.Int.{w32, w64};
ghost use Rattle.redo_vec.specs.Cutting.{number_in};
ghost use Rattle.standby_spec.specs.Loading.{byte_in as byte_there};

fn byte_in(bytes: &[u8], at: usize) -> u8
    ensures { result ≡ slice_index bytes.now at }
{
    if at < bytes.len() { bytes[at] } else { 0 }
}

/// The bytes from a place on.
pub(crate) fn behind(bytes: &[u8], at: usize) -> &[u8]
    ensures { result.now ≡ drop at bytes.now }
{
    if at < bytes.len() {
        &bytes[at..]
    } else {
        &bytes[bytes.len()..]
    }
}

pub(crate) fn u32_in(bytes: &[u8], at: usize) -> u32
    ensures { result ≡ number_in w32 at bytes.now }
{
    let rest = behind(bytes, at);
    u32::from_be_bytes([
        byte_in(rest, 0),
        byte_in(rest, 1),
        byte_in(rest, 2),
        byte_in(rest, 3),
    ])
}

pub(crate) fn u64_in(bytes: &[u8], at: usize) -> u64
    ensures { result ≡ number_in w64 at bytes.now }
{
    let rest = behind(bytes, at);
    u64::from_be_bytes([
        byte_in(rest, 0),
        byte_in(rest, 1),
        byte_in(rest, 2),
        byte_in(rest, 3),
        byte_in(rest, 4),
        byte_in(rest, 5),
        byte_in(rest, 6),
        byte_in(rest, 7),
    ])
}

/// The byte at a place.
pub(crate) fn byte_at(bytes: &[u8], at: usize) -> u8
    ensures { result ≡ byte_there at bytes.now }
{
    match bytes.get(at) {
        None => 0,
        Some(byte) => *byte,
    }
}
