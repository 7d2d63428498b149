//! Whether bytes are a pattern: two parts with a dot between them, each of 1 to 30 name bytes and `%`.
ghost use Rattle.std.specs.Prelude.{◌≡◌};
ghost use Rattle.std.specs.List.{list_all};
ghost use Rattle.rl_value.specs.Text.{is_letter, is_name_byte};
ghost use Rattle.redo_spec.specs.Skips.{before_dot, behind_dot, is_pattern_byte, is_pattern_part, is_pattern};

use rl_value::MAX_NAME;

fn letter(byte: u8) -> bool
    ensures { result ≡ is_letter byte }
{
    matches!(byte, b'A'..=b'Z')
}

fn name_byte(byte: u8) -> bool
    ensures { result ≡ is_name_byte byte }
{
    letter(byte) || matches!(byte, b'0'..=b'9' | b'_' | b'$' | b'#')
}

fn pattern_byte(byte: u8) -> bool
    ensures { result ≡ is_pattern_byte byte }
{
    name_byte(byte) || byte == b'%'
}

fn all_pattern_bytes(bytes: &[u8]) -> bool
    ensures { result ≡ list_all is_pattern_byte bytes.now }
{
    bytes.iter().all(|byte| pattern_byte(*byte))
}

fn pattern_part(bytes: &[u8]) -> bool
    ensures { result ≡ is_pattern_part bytes.now }
{
    !bytes.is_empty() && bytes.len() <= MAX_NAME && all_pattern_bytes(bytes)
}

// The bytes before the first dot and those behind it; where there is none, all and none.
fn parts(bytes: &[u8]) -> (&[u8], &[u8])
    ensures before { result.0.now ≡ before_dot bytes.now }
    ensures behind { result.1.now ≡ behind_dot bytes.now }
{
    for (at, byte) in bytes.iter().enumerate() {
        if *byte == b'.' {
            return (&bytes[..at], &bytes[at + 1..]);
        }
    }
    (bytes, &[])
}

/// Whether the bytes are a pattern.
pub fn pattern_bytes(bytes: &[u8]) -> bool
    ensures { result ≡ is_pattern bytes.now }
{
    let (schema, name) = parts(bytes);
    pattern_part(schema) && pattern_part(name)
}
