//! Which row has a unique value.
//!
//! Each unique value of a row leads to the row's primary key. A write takes away what led to the row that stood there, so
//! no more values are kept than rows have; still, what the index answers is looked at again in the rows.
ghost use Rattle.std.specs.Prelude.{◌≡◌, ◌==◌, OnOk, IfOk, None, true, false};
ghost use Rattle.std.specs.BTreeMap as tree;
ghost use Rattle.std.specs.Option.{option_copied};
ghost use Rattle.rl_value.specs.Order.{key_cmp};
ghost use Rattle.rl_value.specs.declared.key.Key.{Key};
ghost use Rattle.plain_store.specs.Unique.{is_value_of, is_lead, lead_with, lead_without};

use crate::unique_values::unique_value;
use redo_vec::TableRow;
use rl_value::{Key, NoMemory, Row};
use row_apply::unique_keys;
use std::alloc::Global;
use std::collections::BTreeMap;

/// Unique values without Null, each with the primary key of its row.
#[derive(Drop)]
pub struct UniqueIndex {
    alloc: Global,
    owners: BTreeMap<Key, Row>,
}

impl UniqueIndex {
    ghost use Rattle.redo_spec.specs.Dictionary.{uniques_of};
    ghost use Rattle.plain_store.specs.Unique.{lead_of, has_unique, slot_has_unique, lead_after_row};
    ghost use Rattle.plain_store.specs.Checked.{value_leads, leads_from};

    /// No value. It takes no memory yet.
    pub fn new(alloc: Global) -> UniqueIndex
        ensures empty { (q : Key) → lead_of result q ≡ None }
    {
        UniqueIndex {
            alloc,
            owners: BTreeMap::new(alloc),
        }
    }

    /// The primary key to which the value leads.
    pub(crate) fn lead(&self, unique: &Key) -> Option<&Row>
        ensures found { option_copied result ≡ lead_of self.now unique.now }
    {
        self.owners.get(unique)
    }

    fn leads(&self, unique: &Option<Key>, key: &Row) -> bool
        ensures exact { result ≡ value_leads self.now key.now unique.now }
    {
        match unique {
            None => true,
            Some(unique) => leads_to(self.lead(unique), key),
        }
    }

    /// Each unique value of the row leads to this primary key.
    pub(crate) fn leads_all(&self, table: &TableRow, key: &Row, row: &Row) -> Result<bool, NoMemory>
        ensures exact { IfOk result (λ all. all ≡ leads_from self.now table.now.id 1 (uniques_of table.now) key.now row.now) }
    {
        let mut rest = unique_keys(table);
        let mut number: u8 = 1;
        while let [columns, others @ ..] = rest {
            let unique = unique_value(self.alloc, table.id, number, columns, row)?;
            if !self.leads(&unique, key) {
                return Ok(false);
            }
            rest = others;
            number += 1;
        }
        Ok(true)
    }

    /// From now on each unique value of the row leads to this primary key.
    pub(crate) fn enter(&mut self, table: &TableRow, key: &Row, row: &Row) -> Result<(), NoMemory>
        ensures entered { OnOk result ((q : Key) → lead_of self.new q ≡
            lead_with (has_unique table.now row.now q) key.now (lead_of self.old q)) }
    {
        let mut rest = unique_keys(table);
        let mut number: u8 = 1;
        while let [columns, others @ ..] = rest {
            let unique = unique_value(self.alloc, table.id, number, columns, row)?;
            enter_value(&mut self.owners, unique, key)?;
            rest = others;
            number += 1;
        }
        Ok(())
    }

    /// No unique value of the row leads to this primary key any more.
    pub(crate) fn leave(&mut self, table: &TableRow, key: &Row, row: &Row) -> Result<(), NoMemory>
        ensures left { OnOk result ((q : Key) → lead_of self.new q ≡
            lead_without (has_unique table.now row.now q) key.now (lead_of self.old q)) }
    {
        let mut rest = unique_keys(table);
        let mut number: u8 = 1;
        while let [columns, others @ ..] = rest {
            let unique = unique_value(self.alloc, table.id, number, columns, row)?;
            leave_value(&mut self.owners, unique, key);
            rest = others;
            number += 1;
        }
        Ok(())
    }

    fn leave_slot(&mut self, table: &TableRow, key: &Row, was: Option<&Row>) -> Result<(), NoMemory>
        ensures left { OnOk result ((q : Key) → lead_of self.new q ≡
            lead_without (slot_has_unique table.now (option_copied was.entry) q) key.now (lead_of self.old q)) }
    {
        match was {
            None => Ok(()),
            Some(row) => self.leave(table, key, row),
        }
    }

    fn enter_slot(
        &mut self,
        table: &TableRow,
        key: &Row,
        slot: &Option<Row>,
    ) -> Result<(), NoMemory>
        ensures entered { OnOk result ((q : Key) → lead_of self.new q ≡
            lead_with (slot_has_unique table.now slot.now q) key.now (lead_of self.old q)) }
    {
        match slot {
            None => Ok(()),
            Some(row) => self.enter(table, key, row),
        }
    }

    /// Follows a write: the row under the key was this one, and now is this one, or gone.
    pub(crate) fn rewrite(
        &mut self,
        table: &TableRow,
        key: &Row,
        was: Option<&Row>,
        slot: &Option<Row>,
    ) -> Result<(), NoMemory>
        ensures rewritten { OnOk result ((q : Key) → lead_of self.new q ≡
            lead_after_row table.now key.now (option_copied was.entry) slot.now q (lead_of self.old q)) }
    {
        self.leave_slot(table, key, was)?;
        self.enter_slot(table, key, slot)
    }
}

// The value leads to this primary key, if there is one.
fn enter_value(
    owners: &mut BTreeMap<Key, Row>,
    unique: Option<Key>,
    key: &Row,
) -> Result<(), NoMemory>
    ensures entered { OnOk result ((q : Key) → tree.get key_cmp owners.new q ≡
        lead_with (is_value_of q unique) key.now (tree.get key_cmp owners.old q)) }
{
    let Some(unique) = unique else {
        return Ok(());
    };
    let key = key.copy()?;
    match owners.insert(unique, key) {
        Ok(_) => Ok(()),
        Err(_) => Err(NoMemory),
    }
}

fn leads_to(found: Option<&Row>, key: &Row) -> bool
    ensures exact { result ≡ is_lead key.now (option_copied found.entry) }
{
    match found {
        None => false,
        Some(found) => found == key,
    }
}

// The value does not lead to this primary key.
fn leave_value(owners: &mut BTreeMap<Key, Row>, unique: Option<Key>, key: &Row)
    ensures left { (q : Key) → tree.get key_cmp owners.new q ≡
        lead_without (is_value_of q unique) key.now (tree.get key_cmp owners.old q) }
{
    let Some(unique) = unique else {
        return;
    };
    if leads_to(owners.get(&unique), key) {
        let _ = owners.remove(&unique);
    }
}
