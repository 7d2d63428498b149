//! Texts: 1 to 500 bytes of UTF-8.
//!
//! A text of no bytes is Null and never a `Txt`. Texts are ordered by their bytes, which is the order of
//! their characters too; no collation is known.

ghost use Rattle.std.specs.Prelude.{◌≡◌, ◌<◌, ◌↔◌, [], length, List, ℕ, IfOk, OnOk, refl, IsUtf8};
ghost use Rattle.std.specs.Ordering.{as_partial_cmp, eq_by_cmp};
ghost use Rattle.std.specs.Cmp;
ghost use Rattle.std.specs.Cmp.{partial_order_from_agreeing_total, eq_by_cmp_equiv};
ghost use Rattle.rl_value.specs.Text.{IsText, IsRaw};
ghost use Rattle.rl_value.specs.Order.{bytes_cmp, bytes_total};

use crate::limits::MAX_VALUE;
use crate::memory::NoMemory;
use std::alloc::Global;
use std::cmp::Ordering;
use std::marker::Model;

/// Why bytes are no text or no raw value. `Empty` goes before `Size`, and `Size` before `Utf8`.
#[derive(Clone, Copy, Debug, PartialEq, Eq)]
pub enum TxtFault {
    /// No byte at all: such a value is Null.
    Empty,
    /// More than `MAX_VALUE` bytes.
    Size,
    /// The bytes of a text are not UTF-8. A raw value is never refused so.
    Utf8,
    /// There is no memory for the copy.
    Memory,
}

/// A text.
#[derive(Debug, Drop)]
pub struct Txt {
    bytes: Vec<u8>,
}

impl Model for Txt {
    ghost use Rattle.std.specs.Prelude.{List, ℕ};

    ghost Value = { List ℕ };

    ghost use Rattle.rl_value.specs.Text.{IsText};

    ghost view = { λ t. t.bytes.items };

    ghost invariant = { λ t. IsText t.bytes.items };
}

impl Txt {
    /// Copies the bytes of a text that comes from outside.
    pub fn of(alloc: Global, bytes: &[u8]) -> Result<Txt, TxtFault>
        ensures value { IfOk result (λ text. text ≡ bytes.now) }
        ensures text { OnOk result (IsText bytes.now) }
        ensures empty { (result ≡ Err TxtFault.Empty) ↔ (bytes.now ≡ []) }
        ensures size { (result ≡ Err TxtFault.Size) ↔ (MAX_VALUE < length bytes.now) }
        ensures utf8 { (result ≡ Err TxtFault.Utf8) ↔ (IsRaw bytes.now × (¬ IsUtf8 bytes.now)) }
    {
        if bytes.is_empty() {
            return Err(TxtFault::Empty);
        }
        if bytes.len() > MAX_VALUE {
            return Err(TxtFault::Size);
        }
        match std::str::from_utf8(bytes) {
            Ok(_) => match Vec::from_slice(alloc, bytes) {
                Ok(bytes) => Ok(Txt { bytes }),
                Err(_) => Err(TxtFault::Memory),
            },
            Err(_) => Err(TxtFault::Utf8),
        }
    }

    /// Its bytes.
    pub fn bytes(&self) -> &[u8]
        ensures text { IsText self.now }
        ensures same { result.now ≡ self.now }
    {
        self.bytes.as_slice()
    }

    /// Gives up what it holds, in order. It takes no memory.
    pub fn into_items(self) -> Vec<u8>
        ensures text { IsText self }
        ensures same { result.items ≡ self }
    {
        self.bytes
    }

    /// An equal one, which owns memory of its own.
    pub fn copy(&self) -> Result<Txt, NoMemory>
        ensures equal { IfOk result (λ text. text ≡ self.now) }
    {
        match self.bytes.clone() {
            Ok(bytes) => Ok(Txt { bytes }),
            Err(_) => Err(NoMemory),
        }
    }
}

impl PartialEq for Txt {
    ghost eq = { eq_by_cmp bytes_cmp };

    ghost laws = { Cmp.partial_equiv_from_equiv (eq_by_cmp_equiv bytes_total) };

    fn eq(&self, other: &Txt) -> bool {
        self.cmp(other) == Ordering::Equal
    }
}

impl Eq for Txt {
    ghost laws = { eq_by_cmp_equiv bytes_total };
}

impl PartialOrd for Txt {
    ghost partial_cmp = { as_partial_cmp bytes_cmp };

    ghost laws = { partial_order_from_agreeing_total bytes_cmp bytes_total (λ x y. refl) (λ x y. refl) };

    fn partial_cmp(&self, other: &Txt) -> Option<Ordering> {
        Some(self.cmp(other))
    }
}

impl Ord for Txt {
    ghost cmp = { bytes_cmp };

    ghost total = { bytes_total };

    ghost matches_partial_cmp = { λ x y. refl };

    ghost matches_eq = { λ x y. refl };

    fn cmp(&self, other: &Txt) -> Ordering {
        self.bytes.cmp(&other.bytes)
    }
}
