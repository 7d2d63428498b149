//! SCHEMA.NAME of a table, kept without taking memory.
ghost use Rattle.std.specs.Prelude.{◌≡◌, ◌≤◌, ◌+◌, ◌++◌, length, take};
ghost use Rattle.redo_spec.specs.Skips.{full_name};

use redo_vec::TableRow;
use rl_value::MAX_NAME;
use std::marker::Model;

/// The most bytes of it: two names and a dot.
const MAX_FULL: usize = 2 * MAX_NAME + 1;

/// The full name of a table.
#[derive(Drop)]
pub struct FullName {
    bytes: [u8; MAX_FULL],
    len: usize,
}

impl Model for FullName {
    ghost use Rattle.std.specs.Prelude.{List, ℕ, take, ◌≤◌};

    ghost Value = { List ℕ };

    ghost view = { λ n. take n.len n.bytes };

    ghost invariant = { λ n. n.len ≤ 61 };
}

// Puts bytes behind the first `at`.
fn put(kept: &mut [u8], at: usize, bytes: &[u8])
    requires { at + length bytes.now ≤ length kept.old }
    ensures { take (at + length bytes.now) kept.new ≡ take at kept.old ++ bytes.now }
{
    kept[at..at + bytes.len()].copy_from_slice(bytes);
}

impl FullName {
    /// The full name of this table.
    pub fn of(table: &TableRow) -> FullName
        ensures { result ≡ full_name table.now }
    {
        let schema = table.schema.items();
        let name = table.name.items();
        let mut bytes = [0u8; MAX_FULL];
        put(&mut bytes, 0, schema);
        put(&mut bytes, schema.len(), b".");
        put(&mut bytes, schema.len() + 1, name);
        FullName {
            bytes,
            len: schema.len() + 1 + name.len(),
        }
    }

    /// Its bytes.
    pub fn bytes(&self) -> &[u8]
        ensures { result.now ≡ self.now }
    {
        &self.bytes[..self.len]
    }
}
