//! Raw values: 1 to 500 bytes of any kind.
//!
//! A raw value of no bytes is Null and never a `Bin`. Raw values are ordered by their bytes,
//! and stand after all texts (specs/Order.antt).

ghost use Rattle.std.specs.Prelude.{◌≡◌, ◌≢◌, ◌↔◌, ◌<◌, [], length, List, ℕ, IfOk, OnOk};
ghost use Rattle.rl_value.specs.Text.{IsRaw};

use crate::limits::MAX_VALUE;
use crate::memory::NoMemory;
use crate::txt::TxtFault;
use std::alloc::Global;
use std::marker::Model;

/// A raw value.
#[derive(Debug, Drop)]
pub struct Bin {
    bytes: Vec<u8>,
}

impl Model for Bin {
    ghost use Rattle.std.specs.Prelude.{List, ℕ};

    ghost Value = { List ℕ };

    ghost use Rattle.rl_value.specs.Text.{IsRaw};

    ghost view = { λ t. t.bytes.items };

    ghost invariant = { λ t. IsRaw t.bytes.items };
}

impl Bin {
    /// Copies the bytes of a raw value that comes from outside.
    pub fn of(alloc: Global, bytes: &[u8]) -> Result<Bin, TxtFault>
        ensures value { IfOk result (λ bin. bin ≡ bytes.now) }
        ensures raw { OnOk result (IsRaw bytes.now) }
        ensures empty { (result ≡ Err TxtFault.Empty) ↔ (bytes.now ≡ []) }
        ensures size { (result ≡ Err TxtFault.Size) ↔ (MAX_VALUE < length bytes.now) }
        ensures never_utf8 { result ≢ Err TxtFault.Utf8 }
    {
        if bytes.is_empty() {
            return Err(TxtFault::Empty);
        }
        if bytes.len() > MAX_VALUE {
            return Err(TxtFault::Size);
        }
        match Vec::from_slice(alloc, bytes) {
            Ok(bytes) => Ok(Bin { bytes }),
            Err(_) => Err(TxtFault::Memory),
        }
    }

    /// Its bytes.
    pub fn bytes(&self) -> &[u8]
        ensures raw { IsRaw self.now }
        ensures same { result.now ≡ self.now }
    {
        self.bytes.as_slice()
    }

    /// Gives up what it holds, in order. It takes no memory.
    pub fn into_items(self) -> Vec<u8>
        ensures raw { IsRaw self }
        ensures same { result.items ≡ self }
    {
        self.bytes
    }

    /// An equal one, which owns memory of its own.
    pub fn copy(&self) -> Result<Bin, NoMemory>
        ensures equal { IfOk result (λ bin. bin ≡ self.now) }
    {
        match self.bytes.clone() {
            Ok(bytes) => Ok(Bin { bytes }),
            Err(_) => Err(NoMemory),
        }
    }
}
