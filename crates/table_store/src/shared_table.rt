//! A table that several lists may share, with its id and the count of its rows beside it.
//!
//! A list is searched and counted by what stands beside its tables: only a table that is written or asked for rows is looked at.
ghost use Rattle.std.specs.Prelude.{◌≡◌, ◌≤◌, IfOk, IsTrue, length};
ghost use Rattle.std.specs.Arc.{arc_value};
ghost use Rattle.redo_spec.specs.Fold.{live_row_limit};
ghost use Rattle.row_apply.specs.Overlaid.{table_after, writes_rise};
ghost use Rattle.row_apply.specs.Soundness.{AreSoundRows};

use crate::stored_table::StoredTable;
use rl_value::NoMemory;
use row_apply::Write;
use std::alloc::Global;
use std::sync::Arc;

/// A table that several lists may share. Its id and how many rows it has stand beside it.
#[derive(Drop)]
pub(crate) struct SharedTable {
    pub(crate) table: Arc<StoredTable>,
    pub(crate) id: u32,
    pub(crate) count: u64,
    ghost identified: { id ≡ (arc_value table).row.id },
    ghost counted: { count ≡ length (arc_value table).rows },
}

/// A table that one list has.
pub(crate) fn share(alloc: Global, table: StoredTable) -> Result<SharedTable, NoMemory>
    ensures same { IfOk result (λ shared. arc_value shared.table ≡ table) }
{
    let id = table.definition().id;
    let count = table.count();
    match Arc::new(alloc, table) {
        Ok(table) => Ok(SharedTable { table, id, count }),
        Err(_) => Err(NoMemory),
    }
}

// The table itself, or an equal one where another list has it too.
fn own(shared: SharedTable) -> Result<StoredTable, NoMemory>
    ensures same { IfOk result (λ table. table ≡ arc_value shared.table) }
{
    match Arc::try_unwrap(shared.table) {
        Ok(table) => Ok(table),
        Err(shared) => shared.copy(),
    }
}

/// The same table under another owner.
pub(crate) fn other_owner(shared: &SharedTable) -> Result<SharedTable, NoMemory>
    ensures same { IfOk result (λ copy. arc_value copy.table ≡ arc_value shared.now.table) }
{
    match Arc::try_clone(&shared.table) {
        Ok(table) => Ok(SharedTable {
            table,
            id: shared.id,
            count: shared.count,
        }),
        Err(_) => Err(NoMemory),
    }
}

/// How many rows the table has behind writes of it. Without a write its count stands beside it.
pub(crate) fn count_after(shared: &SharedTable, writes: &[Write]) -> u64
    requires writes_rise { IsTrue (writes_rise writes.now) }
    requires sound { AreSoundRows (arc_value shared.now.table).row (arc_value shared.now.table).rows }
    requires few { length (arc_value shared.now.table).rows ≤ live_row_limit }
    ensures exact { result ≡ length (table_after writes.now (arc_value shared.now.table)).rows }
{
    match writes {
        [] => shared.count,
        [_, ..] => shared.table.count_after(writes),
    }
}

/// The table after writes of it; one that none is of stays shared.
pub(crate) fn write_table(
    alloc: Global,
    shared: SharedTable,
    writes: &[Write],
) -> Result<SharedTable, NoMemory>
    requires writes_rise { IsTrue (writes_rise writes.now) }
    requires sound { AreSoundRows (arc_value shared.table).row (arc_value shared.table).rows }
    requires sound_then { AreSoundRows (arc_value shared.table).row (table_after writes.now (arc_value shared.table)).rows }
    ensures written { IfOk result (λ after. arc_value after.table ≡ table_after writes.now (arc_value shared.table)) }
{
    if writes.is_empty() {
        return Ok(shared);
    }
    let table = own(shared)?;
    let table = table.write_all(writes)?;
    share(alloc, table)
}
