//! What is kept beside rows: the index of their unique values, and how many they are.
//!
//! All rows are put into the index first, and then each is looked at in it: where two rows have a value, it leads to one of them.
ghost use Rattle.std.specs.Prelude.{◌≡◌, ◌==◌, OnOk, IfOk, Err, false};
ghost use Rattle.rl_value.specs.declared.key.Key.{Key};
ghost use Rattle.redo_spec.specs.Tables.{assembled, rows_by};
ghost use Rattle.row_apply.specs.Soundness.{AreSound, AreSoundRows};
ghost use Rattle.plain_store.specs.Unique.{lead_of, LeadsToRows, IsIndexed};
ghost use Rattle.plain_store.specs.Kept.{AreKept};
ghost use Rattle.plain_store.specs.declared.fault.KeepFault.TheVariants.{Unsound};

use crate::checking::tables_hold;
use crate::fault::KeepFault;
use crate::plain_rows::PlainRows;
use crate::plain_tables::PlainTables;
use crate::unique_index::UniqueIndex;
use crate::writing::count_rows;
use redo_dict::Dict;
use redo_vec::TableRow;
use rl_value::NoMemory;
use std::alloc::Global;

fn index_rows(index: &mut UniqueIndex, table: &TableRow, rows: &PlainRows) -> Result<(), NoMemory>
    ensures indexed { OnOk result (AreSoundRows table.now rows.now → LeadsToRows table.now rows.now index.new) }
    ensures others { OnOk result ((q : Key) → (q.table == table.now.id) ≡ false → lead_of index.new q ≡ lead_of index.old q) }
{
    for (key, row) in rows.iter() {
        index.enter(table, key, row)?;
    }
    Ok(())
}

fn index_table(
    index: &mut UniqueIndex,
    table: &TableRow,
    tables: &PlainTables,
) -> Result<(), NoMemory>
    ensures indexed { OnOk result (AreSoundRows table.now (rows_by tables.now table.now.id) →
        LeadsToRows table.now (rows_by tables.now table.now.id) index.new) }
    ensures others { OnOk result ((q : Key) → (q.table == table.now.id) ≡ false → lead_of index.new q ≡ lead_of index.old q) }
{
    match tables.table(table.id) {
        None => Ok(()),
        Some(rows) => index_rows(index, table, rows),
    }
}

// Each unique value of a row of these tables leads to the row's primary key.
fn index_tables(
    index: &mut UniqueIndex,
    rest: &[TableRow],
    tables: &PlainTables,
) -> Result<(), NoMemory>
    ensures indexed { OnOk result (AreSound (assembled rest.now tables.now) → IsIndexed rest.now tables.now index.new) }
{
    let [table, others @ ..] = rest else {
        return Ok(());
    };
    index_tables(index, others, tables)?;
    index_table(index, table, tables)
}

/// What is kept beside rows, so that a write need not look at all of them.
#[derive(Drop)]
pub struct Kept {
    /// Which row has a unique value.
    pub index: UniqueIndex,
    /// How many rows the tables of the dictionary have.
    pub count: u64,
}

/// What is kept beside these rows, which have to be sound tables of the dictionary: rows of tables that it hasn't are not looked
/// at. The rows are walked twice, for the index and for the test.
pub fn keep(alloc: Global, dict: &Dict, tables: &PlainTables) -> Result<Kept, KeepFault>
    ensures kept { IfOk result (λ kept. AreKept dict.now.tables tables.now kept.index kept.count) }
    ensures sound { OnOk result (AreSound (assembled dict.now.tables tables.now)) }
    ensures unsound { result ≡ Err Unsound → AreSound (assembled dict.now.tables tables.now) → ⊥ }
{
    let mut index = UniqueIndex::new(alloc);
    index_tables(&mut index, dict.tables(), tables)?;
    if !tables_hold(dict, tables, &index)? {
        return Err(KeepFault::Unsound);
    }
    let count = count_rows(dict, tables)?;
    Ok(Kept { index, count })
}
