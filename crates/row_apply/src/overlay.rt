//! Written rows over the rows beneath, as callers hold them.
//!
//! An overlay is seen as the list of its writes. The index of unique values that it also keeps is seen nowhere.

ghost use Rattle.std.specs.Prelude.{◌≡◌, ◌<◌, List, [], IfOk};
ghost use Rattle.std.specs.Option.{option_copied};
ghost use Rattle.row_apply.specs.Overlaid.{written_at};

use crate::copies::{copied_writes, rows_of};
use crate::writes::Writes;
use crate::written::Written;
use rl_value::{Key, NoMemory, Row};
use std::alloc::Global;
use std::marker::Model;

/// Rows as changes left them, over rows beneath that they do not touch. It is seen as the list of its writes: one for each
/// row key that was written, in rising order of table and key, with the row or with none where it is gone.
#[derive(Drop)]
pub struct Overlay {
    pub(crate) written: Written,
}

impl Model for Overlay {
    ghost use Rattle.std.specs.Prelude.{List};
    ghost use Rattle.row_apply.specs.declared.writes.Write.{Write};

    ghost Value = { List Write };

    ghost use Rattle.row_apply.specs.KeptIn.{slots_of, IsKept};
    ghost use Rattle.row_apply.specs.Written.{writes_in};

    ghost view = { λ o. writes_in (slots_of o.written) };

    ghost invariant = { λ o. IsKept o.written };
}

impl Overlay {
    /// An overlay without a write. It takes no memory yet.
    pub fn new(alloc: Global) -> Overlay
        ensures empty { result ≡ [] }
    {
        Overlay {
            written: Written::new(alloc),
        }
    }

    /// An overlay with these writes.
    pub fn of(alloc: Global, writes: &Writes) -> Result<Overlay, NoMemory>
        ensures same { IfOk result (λ overlay. overlay ≡ writes.now) }
    {
        let rows = rows_of(alloc, writes.items())?;
        Ok(Overlay {
            written: Written::of(alloc, rows),
        })
    }

    /// What was left under a row key: the row, or that it is gone. None where nothing was written there.
    #[tactic(auto, using(crate::proofs::Untouched::written_slot))]
    pub fn find(&self, key: &Key) -> Option<&Option<Row>>
        ensures found { option_copied result ≡ written_at self.now key.now }
    {
        self.written.rows.get(key)
    }

    /// An equal overlay, which owns memory of its own.
    pub fn snapshot(&self) -> Result<Overlay, NoMemory>
        ensures equal { IfOk result (λ overlay. overlay ≡ self.now) }
    {
        let written = self.written.copy()?;
        Ok(Overlay { written })
    }

    /// The rows that were written, each as it is now.
    pub fn writes(&self) -> Result<Writes, NoMemory>
        ensures same { IfOk result (λ writes. writes ≡ self.now) }
    {
        let items = copied_writes(self.written.alloc, &self.written.rows)?;
        Ok(Writes::of(items))
    }

    /// Gives up the rows that were written, each as it is now. Where memory wants they are lost.
    pub fn into_writes(self) -> Result<Writes, NoMemory>
        ensures same { IfOk result (λ writes. writes ≡ self) }
    {
        let items = self.written.into_items()?;
        Ok(Writes::of(items))
    }
}
