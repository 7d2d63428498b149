//! Written rows by their primary keys, and the index of their unique values.
//!
//! A table is indexed once a change of it looks for owners. What the index has is true of each row that is there; it may
//! have values that no row has any more, so what it answers is looked at again. Where memory wants in the middle of a
//! write, the table is no longer taken as indexed, and its next change indexes it anew. Nor is a table taken as indexed two
//! of whose written rows have one unique value: no change of sound tables leaves that.

ghost use Rattle.std.specs.Prelude.{◌≡◌, ℕ, ◌<◌, List, [], IfOk, OnOk, OnErr, IsSome, IsTrue, Option, Some, None, false, true, cond, ◌==◌};
ghost use Rattle.std.specs.List.Sorted.{IsStrictlySortedBy};
ghost use Rattle.std.specs.Map.{keys_of};
ghost use Rattle.std.specs.Ordering.{is_eq};
ghost use Rattle.rl_value.specs.Order.{key_cmp};
ghost use Rattle.rl_value.specs.declared.key.Key.{Key};
ghost use Rattle.row_apply.specs.Adding.{HasIndex};
ghost use Rattle.row_apply.specs.Kept.{row_key, slot_at, indexed_at, AreSlots, Sets, Puts, IndexedOnly, OneLive, IsFreeAmong, IsPrimaryOf};
ghost use Rattle.row_apply.specs.Written.{writes_in};
ghost use Rattle.row_apply.specs.KeptIn.{slots_of, owners_of, indexed_of, IsKept};

use crate::copies::{copied_rows, moved_writes};
use crate::index::{index_row, index_rows, rows_lead, same_keys};
use crate::writes::Write;
use redo_vec::{KeyLists, TableRow};
use rl_value::{Key, NoMemory, Row};
use std::alloc::Global;
use std::collections::BTreeMap;

/// Written rows.
#[derive(Drop)]
pub struct Written {
    pub(crate) rows: BTreeMap<Key, Option<Row>>,
    pub(crate) owners: BTreeMap<Key, Key>,
    pub(crate) indexed: BTreeMap<u32, KeyLists>,
    pub(crate) alloc: Global,
}

impl Written {
    /// No rows.
    pub fn new(alloc: Global) -> Written
        ensures slots { slots_of result ≡ [] }
        ensures kept { IsKept result }
    {
        Written {
            rows: BTreeMap::new(alloc),
            owners: BTreeMap::new(alloc),
            indexed: BTreeMap::new(alloc),
            alloc,
        }
    }

    /// These rows, of which no table is indexed yet.
    pub fn of(alloc: Global, rows: BTreeMap<Key, Option<Row>>) -> Written
        requires slots { AreSlots rows.entries }
        ensures same { slots_of result ≡ rows.entries }
        ensures kept { IsKept result }
    {
        Written {
            rows,
            owners: BTreeMap::new(alloc),
            indexed: BTreeMap::new(alloc),
            alloc,
        }
    }

    // The table is indexed by the keys that it has.
    fn is_indexed(&self, table: &TableRow) -> bool
        ensures { IsTrue result → indexed_at (indexed_of self.now) table.now.id ≡ Some table.now.keys }
    {
        match self.indexed.get(&table.id) {
            None => false,
            Some(keys) => same_keys(keys, &table.keys),
        }
    }

    // The table is taken as indexed by these keys. Where memory wants it is not.
    fn mark(&mut self, id: u32, keys: KeyLists) -> Result<(), NoMemory>
        requires { indexed_at (indexed_of self.old) id ≡ None }
        ensures marked { OnOk result (indexed_at (indexed_of self.new) id ≡ Some keys) }
        ensures only { (found : List (List ℕ)) → indexed_at (indexed_of self.new) id ≡ Some found → found ≡ keys }
        ensures refused { OnErr result (indexed_at (indexed_of self.new) id ≡ None) }
        ensures others { IndexedOnly id (indexed_of self.old) (indexed_of self.new) }
        ensures slots { slots_of self.new ≡ slots_of self.old }
        ensures owners { owners_of self.new ≡ owners_of self.old }
    {
        match self.indexed.insert(id, keys) {
            Ok(_) => Ok(()),
            Err(_) => Err(NoMemory),
        }
    }

    // The table is not taken as indexed.
    fn unmark(&mut self, id: u32) -> Option<KeyLists>
        ensures was { result ≡ indexed_at (indexed_of self.old) id }
        ensures gone { indexed_at (indexed_of self.new) id ≡ None }
        ensures others { IndexedOnly id (indexed_of self.old) (indexed_of self.new) }
        ensures slots { slots_of self.new ≡ slots_of self.old }
        ensures owners { owners_of self.new ≡ owners_of self.old }
    {
        self.indexed.remove(&id)
    }

    /// Indexes the table by the keys that it has, if it is not indexed so. Where two of its written rows have one unique value
    /// it is left without an index.
    pub fn index_table(&mut self, table: &TableRow) -> Result<(), NoMemory>
        requires kept { IsKept self.old }
        ensures indexed { OnOk result (OneLive table.now (slots_of self.old) → HasIndex self.new table.now) }
        ensures marked { OnOk result ((keys : List (List ℕ)) → indexed_at (indexed_of self.new) table.now.id ≡ Some keys →
            keys ≡ table.now.keys) }
        ensures kept { IsKept self.new }
        ensures slots { slots_of self.new ≡ slots_of self.old }
    {
        if self.is_indexed(table) {
            return Ok(());
        }
        self.unmark(table.id);
        index_rows(self.alloc, &self.rows, &mut self.owners, table)?;
        if !rows_lead(self.alloc, &self.rows, &self.owners, table)? {
            // Two written rows have one value, so the rows aren't sound, and an index of them can't be right.
            return Ok(());
        }
        let keys = table.keys.copy()?;
        self.mark(table.id, keys)
    }

    // Under the key stands this row now, or none; what stood there comes back.
    fn swap(&mut self, key: Key, slot: Option<Row>) -> Result<Option<Option<Row>>, NoMemory>
        requires primary { key.index ≡ 0 }
        requires slots { AreSlots (slots_of self.old) }
        ensures was { IfOk result (λ was. was ≡ slot_at (slots_of self.old) key) }
        ensures set { OnOk result (Sets (slots_of self.old) (slots_of self.new) key slot) }
        ensures slots { AreSlots (slots_of self.new) }
        ensures unchanged { OnErr result (slots_of self.new ≡ slots_of self.old) }
        ensures owners { owners_of self.new ≡ owners_of self.old }
        ensures indexed { indexed_of self.new ≡ indexed_of self.old }
    {
        match self.rows.insert(key, slot) {
            Ok(was) => Ok(was),
            Err(_) => Err(NoMemory),
        }
    }

    fn set(&mut self, key: Key, slot: Option<Row>) -> Result<(), NoMemory>
        requires primary { key.index ≡ 0 }
        requires slots { AreSlots (slots_of self.old) }
        ensures set { OnOk result (Sets (slots_of self.old) (slots_of self.new) key slot) }
        ensures slots { AreSlots (slots_of self.new) }
        ensures unchanged { OnErr result (slots_of self.new ≡ slots_of self.old) }
        ensures owners { owners_of self.new ≡ owners_of self.old }
        ensures indexed { indexed_of self.new ≡ indexed_of self.old }
    {
        match self.swap(key, slot) {
            Ok(_) => Ok(()),
            Err(NoMemory) => Err(NoMemory),
        }
    }

    // What stood under the key stands there again, if anything did.
    fn put_back(&mut self, key: Key, was: Option<Option<Row>>)
        requires there { IsSome (slot_at (slots_of self.old) key) }
        ensures back { (q : Key) → slot_at (slots_of self.new) q ≡
            cond (is_eq (key_cmp key q)) was (slot_at (slots_of self.old) q) }
        ensures ordered { IsStrictlySortedBy key_cmp (keys_of (slots_of self.new)) }
        ensures owners { owners_of self.new ≡ owners_of self.old }
        ensures indexed { indexed_of self.new ≡ indexed_of self.old }
    {
        match was {
            None => {
                self.rows.remove(&key);
            }
            Some(slot) => {
                // A key that is there takes no memory.
                let _gone = self.rows.insert(key, slot);
            }
        }
    }

    // The row under the first key goes, and one under another key comes. Where memory wants, neither is done.
    fn move_row(&mut self, gone: Key, key: Key, row: Row) -> Result<(), NoMemory>
        requires primary { key.index ≡ 0 }
        requires primary_gone { gone.index ≡ 0 }
        requires slots { AreSlots (slots_of self.old) }
        ensures put { OnOk result (Puts (slots_of self.old) (slots_of self.new) (Some gone) key row) }
        ensures slots { AreSlots (slots_of self.new) }
        ensures unchanged { OnErr result (slots_of self.new ≡ slots_of self.old) }
        ensures owners { owners_of self.new ≡ owners_of self.old }
        ensures indexed { indexed_of self.new ≡ indexed_of self.old }
    {
        let left = gone.copy()?;
        let was = self.swap(left, None)?;
        match self.set(key, Some(row)) {
            Ok(()) => Ok(()),
            Err(NoMemory) => {
                self.put_back(gone, was);
                Err(NoMemory)
            }
        }
    }

    fn replace(&mut self, gone: Key, key: Key, row: Row) -> Result<(), NoMemory>
        requires primary { key.index ≡ 0 }
        requires primary_gone { gone.index ≡ 0 }
        requires slots { AreSlots (slots_of self.old) }
        ensures put { OnOk result (Puts (slots_of self.old) (slots_of self.new) (Some gone) key row) }
        ensures slots { AreSlots (slots_of self.new) }
        ensures unchanged { OnErr result (slots_of self.new ≡ slots_of self.old) }
        ensures owners { owners_of self.new ≡ owners_of self.old }
        ensures indexed { indexed_of self.new ≡ indexed_of self.old }
    {
        if gone == key {
            return self.set(key, Some(row));
        }
        self.move_row(gone, key, row)
    }

    fn put(&mut self, gone: Option<Key>, key: Key, row: Row) -> Result<(), NoMemory>
        requires primary { key.index ≡ 0 }
        requires primary_gone { IsPrimaryOf key.table gone }
        requires slots { AreSlots (slots_of self.old) }
        ensures put { OnOk result (Puts (slots_of self.old) (slots_of self.new) gone key row) }
        ensures slots { AreSlots (slots_of self.new) }
        ensures unchanged { OnErr result (slots_of self.new ≡ slots_of self.old) }
        ensures owners { owners_of self.new ≡ owners_of self.old }
        ensures indexed { indexed_of self.new ≡ indexed_of self.old }
    {
        match gone {
            None => self.set(key, Some(row)),
            Some(gone) => self.replace(gone, key, row),
        }
    }

    // Marks the table again as it was. Where memory wants it stays unmarked, and is indexed anew by its next change.
    fn mark_again(&mut self, id: u32, keys: Option<KeyLists>)
        requires { indexed_at (indexed_of self.old) id ≡ None }
        ensures only { (found : List (List ℕ)) → indexed_at (indexed_of self.new) id ≡ Some found → keys ≡ Some found }
        ensures others { IndexedOnly id (indexed_of self.old) (indexed_of self.new) }
        ensures slots { slots_of self.new ≡ slots_of self.old }
        ensures owners { owners_of self.new ≡ owners_of self.old }
    {
        match keys {
            None => {}
            Some(keys) => {
                let _marked = self.mark(id, keys);
            }
        }
    }

    /// Puts a row of the table under its key, in the place of the one that goes.
    pub fn put_row(
        &mut self,
        table: &TableRow,
        gone: Option<Key>,
        key: Key,
        row: Row,
    ) -> Result<(), NoMemory>
        requires kept { IsKept self.old }
        requires marked { (keys : List (List ℕ)) → indexed_at (indexed_of self.old) table.now.id ≡ Some keys →
            keys ≡ table.now.keys }
        requires key { key ≡ row_key table.now.id key.values }
        requires gone { IsPrimaryOf table.now.id gone }
        requires free { HasIndex self.old table.now → IsFreeAmong table.now (slots_of self.old) gone row }
        ensures put { OnOk result (Puts (slots_of self.old) (slots_of self.new) gone key row) }
        ensures kept { IsKept self.new }
        ensures unchanged { OnErr result (slots_of self.new ≡ slots_of self.old) }
    {
        let keys = self.unmark(table.id);
        index_row(self.alloc, &mut self.owners, table, &key, &row)?;
        self.put(gone, key, row)?;
        self.mark_again(table.id, keys);
        Ok(())
    }

    /// Takes the row of this key away.
    pub fn take_row(&mut self, key: Key) -> Result<(), NoMemory>
        requires primary { key.index ≡ 0 }
        requires kept { IsKept self.old }
        ensures set { OnOk result (Sets (slots_of self.old) (slots_of self.new) key None) }
        ensures kept { IsKept self.new }
        ensures unchanged { OnErr result (slots_of self.new ≡ slots_of self.old) }
    {
        self.set(key, None)
    }

    /// The same rows. The index is made anew where it is wanted.
    pub fn copy(&self) -> Result<Written, NoMemory>
        requires kept { IsKept self.now }
        ensures same { IfOk result (λ copy. slots_of copy ≡ slots_of self.now) }
        ensures kept { IfOk result IsKept }
    {
        let rows = copied_rows(self.alloc, &self.rows)?;
        Ok(Written {
            rows,
            owners: BTreeMap::new(self.alloc),
            indexed: BTreeMap::new(self.alloc),
            alloc: self.alloc,
        })
    }

    /// A write for each row, which gives up the rows.
    pub fn into_items(self) -> Result<Vec<Write>, NoMemory>
        ensures { IfOk result (λ writes. writes.items ≡ writes_in (slots_of self)) }
    {
        let Written {
            rows,
            owners: _,
            indexed: _,
            alloc,
        } = self;
        moved_writes(alloc, rows)
    }
}
