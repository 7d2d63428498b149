//! Patterns of tables: SCHEMA.NAME, with `%` for any bytes and `_` for any one byte.
ghost use Rattle.std.specs.Prelude.{◌≡◌, ◌↔◌, ◌<◌, IsTrue, IsSome, IfOk, IfSome, not};
ghost use Rattle.redo_spec.specs.Skips.{is_pattern, matches as names};
ghost use Rattle.skip_guard.specs.Rules.{IsPatternOf};

use crate::matching::text_matches;
use crate::pattern_form::pattern_bytes;
use rl_value::NoMemory;
use std::alloc::Global;
use std::marker::Model;

/// A pattern of tables: two parts with a dot between them, each of 1 to 30 name bytes and `%`.
#[derive(Debug, Drop)]
pub struct Pattern {
    bytes: Vec<u8>,
}

impl Model for Pattern {
    ghost use Rattle.std.specs.Prelude.{List, ℕ, IsTrue};

    ghost Value = { List ℕ };

    ghost use Rattle.redo_spec.specs.Skips.{is_pattern};

    ghost view = { λ p. p.bytes.items };

    ghost invariant = { λ p. IsTrue (is_pattern p.bytes.items) };
}

impl Pattern {
    /// The pattern of these bytes, where they are one.
    pub fn of(alloc: Global, bytes: &[u8]) -> Result<Option<Pattern>, NoMemory>
        ensures exact { IfOk result (IsPatternOf bytes.now) }
    {
        if !pattern_bytes(bytes) {
            return Ok(None);
        }
        match Vec::from_slice(alloc, bytes) {
            Ok(bytes) => Ok(Some(Pattern { bytes })),
            Err(_) => Err(NoMemory),
        }
    }

    /// Its bytes.
    pub fn bytes(&self) -> &[u8]
        ensures form { IsTrue (is_pattern self.now) }
        ensures same { result.now ≡ self.now }
    {
        self.bytes.as_slice()
    }

    /// Whether it matches SCHEMA.NAME as a whole: `%` is any bytes, `_` any one byte, and each other byte itself. It takes
    /// about as many steps as the product of the two lengths at most.
    pub fn matches(&self, full_name: &[u8]) -> bool
        ensures exact { result ≡ names self.now full_name.now }
    {
        text_matches(self.bytes.as_slice(), full_name)
    }

    /// An equal one, which owns memory of its own.
    pub fn copy(&self) -> Result<Pattern, NoMemory>
        ensures equal { IfOk result (λ pattern. pattern ≡ self.now) }
    {
        match self.bytes.clone() {
            Ok(bytes) => Ok(Pattern { bytes }),
            Err(_) => Err(NoMemory),
        }
    }
}
