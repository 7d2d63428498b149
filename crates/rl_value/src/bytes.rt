//! A list of bytes that owns them.
//!
//! Keys and values of the durable store are such lists. Any bytes may stand in it, also none.
//! They are ordered as texts are: by the first byte that differs, and else the shorter comes first.

ghost use Rattle.std.specs.Prelude.{◌≡◌, ◌<◌, List, ℕ, IfOk, refl};
ghost use Rattle.std.specs.Ordering.{as_partial_cmp, eq_by_cmp};
ghost use Rattle.std.specs.Cmp;
ghost use Rattle.std.specs.Cmp.{partial_order_from_agreeing_total, eq_by_cmp_equiv};
ghost use Rattle.rl_value.specs.Order.{bytes_cmp, bytes_total};

use crate::memory::NoMemory;
use std::cmp::Ordering;
use std::marker::Model;

/// A list of bytes.
#[derive(Debug, Drop)]
pub struct Bytes {
    bytes: Vec<u8>,
}

impl Model for Bytes {
    ghost use Rattle.std.specs.Prelude.{List, ℕ};

    ghost Value = { List ℕ };

    ghost view = { λ b. b.bytes.items };
}

impl Bytes {
    /// The list of these bytes.
    pub fn of(bytes: Vec<u8>) -> Bytes
        ensures same { result ≡ bytes.items }
    {
        Bytes { bytes }
    }

    /// Its bytes.
    pub fn bytes(&self) -> &[u8]
        ensures same { result.now ≡ self.now }
    {
        self.bytes.as_slice()
    }

    /// Gives up what it holds, in order. It takes no memory.
    pub fn into_items(self) -> Vec<u8>
        ensures same { result.items ≡ self }
    {
        self.bytes
    }

    /// An equal one, which owns memory of its own.
    pub fn copy(&self) -> Result<Bytes, NoMemory>
        ensures equal { IfOk result (λ bytes. bytes ≡ self.now) }
    {
        match self.bytes.clone() {
            Ok(bytes) => Ok(Bytes { bytes }),
            Err(_) => Err(NoMemory),
        }
    }
}

impl PartialEq for Bytes {
    ghost eq = { eq_by_cmp bytes_cmp };

    ghost laws = { Cmp.partial_equiv_from_equiv (eq_by_cmp_equiv bytes_total) };

    fn eq(&self, other: &Bytes) -> bool {
        self.cmp(other) == Ordering::Equal
    }
}

impl Eq for Bytes {
    ghost laws = { eq_by_cmp_equiv bytes_total };
}

impl PartialOrd for Bytes {
    ghost partial_cmp = { as_partial_cmp bytes_cmp };

    ghost laws = { partial_order_from_agreeing_total bytes_cmp bytes_total (λ x y. refl) (λ x y. refl) };

    fn partial_cmp(&self, other: &Bytes) -> Option<Ordering> {
        Some(self.cmp(other))
    }
}

impl Ord for Bytes {
    ghost cmp = { bytes_cmp };

    ghost total = { bytes_total };

    ghost matches_partial_cmp = { λ x y. refl };

    ghost matches_eq = { λ x y. refl };

    fn cmp(&self, other: &Bytes) -> Ordering {
        self.bytes.cmp(&other.bytes)
    }
}
