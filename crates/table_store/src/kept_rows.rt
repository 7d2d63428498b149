//! The rows of one table, the indexes of its unique keys, and how many rows there are.
ghost use Rattle.std.specs.Prelude.{◌≡◌, ◌==◌, ◌+◌, ◌<◌, ◌≤◌, IfOk, OnOk, IsTrue, [], length, is_some, true, false, ℕ, List, Some, None, slice_get};
ghost use Rattle.std.specs.List.{list_any};
ghost use Rattle.std.specs.Option.{option_copied};
ghost use Rattle.std.specs.FinMap.Entries as entries;
ghost use Rattle.rl_value.specs.Order.{row_cmp};
ghost use Rattle.redo_spec.specs.ConflictKeys.{is_null};
ghost use Rattle.redo_spec.specs.Dictionary.{uniques_of};
ghost use Rattle.redo_spec.specs.Fold.{live_row_limit};
ghost use Rattle.redo_spec.specs.Tables.{owner_in};
ghost use Rattle.redo_spec.specs.Work.{write_row};
ghost use Rattle.row_apply.specs.Found.{key_columns};
ghost use Rattle.row_apply.specs.Overlaid.{rows_after, writes_rise};
ghost use Rattle.row_apply.specs.Soundness.{AreSoundRows};
ghost use Rattle.table_store.specs.Leads.{AreLedBut, leads_after, count_of};

use crate::counts::{count_added, count_removed};
use crate::owner::owner_by;
use crate::unique_lead::follow_all;
use redo_vec::TableRow;
use rl_value::{NoMemory, Row};
use row_apply::{Write, unique_keys};
use row_tree::Tree;
use std::alloc::Global;

/// Rows by primary key, an index for each unique key of the table in their order, and the count of the rows.
#[derive(Drop)]
pub(crate) struct KeptRows {
    pub(crate) rows: Tree,
    pub(crate) uniques: Vec<Tree>,
    pub(crate) count: u64,
}

// One row more or fewer, where a row comes to a key that had none, or leaves none behind.
fn count_after(count: u64, was: bool, is: bool) -> Result<u64, NoMemory>
    requires there { was ≡ true → 0 < count }
    ensures exact { IfOk result (λ after. after + count_of was ≡ count + count_of is) }
{
    if was == is {
        return Ok(count);
    }
    if was {
        return Ok(count - 1);
    }
    match count.checked_add(1) {
        // No store has 2^64 rows; the answer without a cause stands for it.
        None => Err(NoMemory),
        Some(count) => Ok(count),
    }
}

fn write_row(rows: Tree, write: &Write) -> Result<Tree, NoMemory>
    ensures written { IfOk result (λ after. after ≡ write_row rows write.now.key write.now.row) }
{
    match &write.row {
        None => rows.remove(&write.key),
        Some(row) => {
            let key = write.key.copy()?;
            let row = row.copy()?;
            rows.put(key, row)
        }
    }
}

impl KeptRows {
    /// The primary key of the row that has this value of the unique key of this number; unique keys count from 1.
    pub(crate) fn owner(&self, table: &TableRow, number: usize, values: &Row) -> Option<&Row>
        requires unique { 0 < number }
        requires inside { number < length table.now.keys }
        requires filled { list_any is_null values.now ≡ false }
        requires led { AreLedBut (uniques_of table.now) [] self.now.rows self.now.uniques.items }
        ensures owner { AreSoundRows table.now self.now.rows → option_copied result ≡
            owner_in self.now.rows (key_columns table.now number) values.now }
    {
        let columns = &unique_keys(table)[number - 1];
        let index = &self.uniques.as_slice()[number - 1];
        owner_by(&self.rows, index, columns, values)
    }

    /// How many rows there are behind those of the writes that are of this table.
    pub(crate) fn count_after(&self, id: u32, writes: &[Write]) -> u64
        requires counted { self.now.count ≡ length self.now.rows }
        requires rising { IsTrue (entries.is_sorted row_cmp self.now.rows) }
        requires few { length self.now.rows ≤ live_row_limit }
        requires writes_rise { IsTrue (writes_rise writes.now) }
        ensures exact { result ≡ length (rows_after id writes.now self.now.rows) }
    {
        let added = count_added(&self.rows, id, writes);
        let removed = count_removed(&self.rows, id, writes);
        self.count + added - removed
    }

    // After one write of a row of this table.
    #[tactic(auto, using(crate::proofs::Counting::counted_write, crate::proofs::Counting::found_some))]
    fn write(self, alloc: Global, table: &TableRow, write: &Write) -> Result<KeptRows, NoMemory>
        requires counted { self.count ≡ length self.rows }
        requires rising { IsTrue (entries.is_sorted row_cmp self.rows) }
        ensures written { IfOk result (λ after. after.rows ≡ write_row self.rows write.now.key write.now.row) }
        ensures led { IfOk result (λ after. after.uniques.items ≡ leads_after (uniques_of table.now) write.now.key
            (entries.find row_cmp write.now.key self.rows) write.now.row self.uniques.items) }
        ensures counted { IfOk result (λ after. after.count ≡ length after.rows) }
    {
        let KeptRows {
            rows,
            uniques,
            count,
        } = self;
        let was = rows.get(&write.key);
        let count = count_after(count, was.is_some(), write.row.is_some())?;
        let uniques = follow_all(
            alloc,
            unique_keys(table),
            uniques,
            &write.key,
            was,
            write.row.as_ref(),
        )?;
        let rows = write_row(rows, write)?;
        Ok(KeptRows {
            rows,
            uniques,
            count,
        })
    }

    /// After those of the writes that are of this table. In the end each unique value has one owner.
    pub(crate) fn write_all(
        self,
        alloc: Global,
        table: &TableRow,
        writes: &[Write],
    ) -> Result<KeptRows, NoMemory>
        requires counted { self.count ≡ length self.rows }
        requires rising { IsTrue (entries.is_sorted row_cmp self.rows) }
        requires led { AreLedBut (uniques_of table.now) [] self.rows self.uniques.items }
        requires writes_rise { IsTrue (writes_rise writes.now) }
        requires sound { AreSoundRows table.now (rows_after table.now.id writes.now self.rows) }
        ensures written { IfOk result (λ after. after.rows ≡ rows_after table.now.id writes.now self.rows) }
        ensures led { IfOk result (λ after. AreLedBut (uniques_of table.now) [] after.rows after.uniques.items) }
        ensures counted { IfOk result (λ after. after.count ≡ length after.rows) }
    {
        let mut kept = self;
        let mut rest = writes;
        while let [write, others @ ..] = rest {
            if write.table == table.id {
                kept = kept.write(alloc, table, write)?;
            }
            rest = others;
        }
        Ok(kept)
    }
}
