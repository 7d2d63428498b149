//! Names of schemas, tables, columns and sessions.
//!
//! A name has 1 to 30 bytes: A-Z, 0-9, `_`, `$` and `#`, a letter first. There is no quoted name, and no
//! lower-case letter is raised.

ghost use Rattle.std.specs.Prelude.{◌≡◌, ◌≤◌, ◌<◌, ◌↔◌, List, ℕ, IsTrue, IsSome, IfSome};
ghost use Rattle.rl_value.specs.Text.{is_name, is_letter, is_name_byte, first_is_letter};
ghost use Rattle.std.specs.List.{list_all};

use crate::limits::MAX_NAME;
use std::marker::Model;

/// A name.
#[derive(Debug, Drop)]
pub struct Name {
    bytes: [u8; MAX_NAME],
    len: usize,
}

impl Model for Name {
    ghost use Rattle.std.specs.Prelude.{List, ℕ, IsTrue, take, ◌≤◌};

    ghost Value = { List ℕ };

    ghost use Rattle.rl_value.specs.Text.{is_name};

    ghost view = { λ n. take n.len n.bytes };

    ghost invariant = { λ n. (n.len ≤ 30) × IsTrue (is_name (take n.len n.bytes)) };
}

impl Name {
    /// The name of these bytes, where they are one. It takes no memory.
    pub fn of(bytes: &[u8]) -> Option<Name>
        ensures value { IfSome result (λ name. name ≡ bytes.now) }
        ensures exact { IsSome result ↔ IsTrue (is_name bytes.now) }
    {
        if !name_bytes(bytes) {
            return None;
        }
        let mut kept = [0u8; MAX_NAME];
        let len = bytes.len();
        kept[..len].copy_from_slice(bytes);
        Some(Name { bytes: kept, len })
    }

    /// Its bytes.
    pub fn bytes(&self) -> &[u8]
        ensures name { IsTrue (is_name self.now) }
        ensures same { result.now ≡ self.now }
    {
        &self.bytes[..self.len]
    }

    /// A second name of the same bytes. It takes no memory.
    pub fn copy(&self) -> Name
        ensures equal { result ≡ self.now }
    {
        Name {
            bytes: self.bytes,
            len: self.len,
        }
    }
}

fn letter(byte: u8) -> bool
    ensures { result ≡ is_letter byte }
{
    matches!(byte, b'A'..=b'Z')
}

fn name_byte(byte: u8) -> bool
    ensures { result ≡ is_name_byte byte }
{
    letter(byte) || matches!(byte, b'0'..=b'9' | b'_' | b'$' | b'#')
}

fn begins_with_letter(bytes: &[u8]) -> bool
    ensures { result ≡ first_is_letter bytes.now }
{
    match bytes {
        [] => false,
        [first, ..] => letter(*first),
    }
}

fn all_name_bytes(bytes: &[u8]) -> bool
    ensures { result ≡ list_all is_name_byte bytes.now }
{
    bytes.iter().all(|byte| name_byte(*byte))
}

fn name_bytes(bytes: &[u8]) -> bool
    ensures { result ≡ is_name bytes.now }
{
    begins_with_letter(bytes) && bytes.len() <= MAX_NAME && all_name_bytes(bytes)
}
