//! The rows, which area 5 has in order of the bytes of their keys.
//!
//! A row comes to those before it as an INSERT would: it fits its table, stands under its own primary key, and no row has that
//! key or one of its unique values. Each is put into the tables where it is, so no list of all rows is made.
ghost use Rattle.std.specs.Prelude.{◌≡◌, ◌≢◌, ◌≤◌, ◌<◌, ◌∷◌, [], IfOk, IsTrue, Err, Some, slice_get, is_some};
ghost use Rattle.std.specs.List.{AllByRecursion};
ghost use Rattle.std.specs.Ordering.{eq_by_cmp};
ghost use Rattle.rl_value.specs.Order.{row_cmp};
ghost use Rattle.rl_ports.specs.Faults.{NoneCounted, Rose, Told};
ghost use Rattle.redo_vec.specs.Ranges.{IsTable};
ghost use Rattle.redo_spec.specs.Dictionary.{table_of};
ghost use Rattle.redo_spec.specs.Effect.{taken_at};
ghost use Rattle.redo_spec.specs.Fold.{live_row_limit};
ghost use Rattle.redo_spec.specs.Tables.{definitions_of, empty_tables, values_at, primary_key, row_count};
ghost use Rattle.redo_spec.specs.Work.{rows_of};
ghost use Rattle.row_apply.specs.Overlaid.{overlaid, are_of};
ghost use Rattle.row_apply.specs.Soundness.{AreSound};
ghost use Rattle.standby_spec.specs.Loading.{rows_in};
ghost use Rattle.checkpoint.specs.declared.fault.LoadFault.TheVariants.{KeeperFault};
ghost use Rattle.checkpoint.specs.Areas.{Reads};
ghost use Rattle.checkpoint.specs.Read.{AreRowsIn};
ghost use Rattle.checkpoint.specs.RowWrites.{is_keyed_row, is_there, is_taken, may_come, write_to, write_of_pair};

use crate::area::{hold_bytes, next};
use crate::fault::LoadFault;
use kept_layout::{row_in, row_place_in};
use redo_dict::Dict;
use redo_vec::{KeyColumns, TableRow};
use rl_ports::Keeper;
use rl_value::{Bytes, Key, NoMemory, Row};
use row_apply::{Rows, Write, Writes, has_null, key_row, unique_keys};
use std::alloc::Global;
use table_store::{StoreFault, Tables};

/// The most rows that may be live.
const MAX_LIVE_ROWS: u64 = 1_048_576;

// Another row has the row's value of this unique key.
fn is_taken_at(
    alloc: Global,
    tables: &Tables,
    table: &TableRow,
    row: &Row,
    index: u8,
    columns: &KeyColumns,
) -> Result<bool, NoMemory>
    requires sound { AreSound tables.now.tables }
    requires there { table_of (definitions_of tables.now.tables) table.now.id ≡ Some table.now }
    requires unique { 0 < index }
    requires columns { slice_get table.now.keys index ≡ Some columns.now }
    ensures { IfOk result (λ taken. taken ≡ is_some (taken_at table.now (rows_of tables.now.tables table.now.id) index columns.now
        (values_at row.now columns.now))) }
{
    let values = key_row(alloc, row, columns)?;
    if has_null(values.values()) {
        return Ok(false);
    }
    let key = Key {
        table: table.id,
        index,
        values,
    };
    match tables.owner(&key) {
        None => Ok(false),
        Some(_owner) => Ok(true),
    }
}

// Another row has one of the row's unique values.
fn is_taken(alloc: Global, tables: &Tables, table: &TableRow, row: &Row) -> Result<bool, NoMemory>
    requires sound { AreSound tables.now.tables }
    requires there { table_of (definitions_of tables.now.tables) table.now.id ≡ Some table.now }
    ensures { IfOk result (λ taken. taken ≡ is_taken table.now (rows_of tables.now.tables table.now.id) row.now) }
{
    let keys = unique_keys(table);
    let mut index: u8 = 1;
    for columns in keys {
        if is_taken_at(alloc, tables, table, row, index, columns)? {
            return Ok(true);
        }
        index += 1;
    }
    Ok(false)
}

// A row with this primary key is there.
fn is_there(tables: &Tables, table: &TableRow, key: &Row) -> Result<bool, NoMemory>
    requires there { table_of (definitions_of tables.now.tables) table.now.id ≡ Some table.now }
    ensures { IfOk result (λ there. there ≡ is_there (rows_of tables.now.tables table.now.id) key.now) }
{
    let values = key.copy()?;
    let key = Key {
        table: table.id,
        index: 0,
        values,
    };
    match tables.get(&key) {
        None => Ok(false),
        Some(_row) => Ok(true),
    }
}

// The row stands under its own primary key.
fn is_keyed(alloc: Global, table: &TableRow, key: &Row, row: &Row) -> Result<bool, NoMemory>
    ensures { IfOk result (λ keyed. keyed ≡ eq_by_cmp row_cmp (primary_key table.now row.now) key.now) }
{
    match table.keys.items() {
        [] => unreachable!(),
        [primary, ..] => {
            let own = key_row(alloc, row, primary)?;
            Ok(own == *key)
        }
    }
}

// The row fits its table and stands under its own primary key.
fn is_row(
    alloc: Global,
    dict: &Dict,
    table: &TableRow,
    key: &Row,
    row: &Row,
) -> Result<bool, NoMemory>
    requires there { table_of dict.now.tables table.now.id ≡ Some table.now }
    ensures { IfOk result (λ fits. fits ≡ is_keyed_row table.now key.now row.now) }
{
    if !dict.check_row(table.id, row) {
        return Ok(false);
    }
    is_keyed(alloc, table, key, row)
}

// The row may come to the others of its table.
fn may_come(
    alloc: Global,
    tables: &Tables,
    table: &TableRow,
    key: &Row,
    row: &Row,
) -> Result<bool, NoMemory>
    requires sound { AreSound tables.now.tables }
    requires there { table_of (definitions_of tables.now.tables) table.now.id ≡ Some table.now }
    ensures { IfOk result (λ may. may ≡ may_come table.now (rows_of tables.now.tables table.now.id) key.now row.now) }
{
    if !is_row(alloc, tables.dict(), table, key, row)? {
        return Ok(false);
    }
    if is_there(tables, table, key)? {
        return Ok(false);
    }
    Ok(!is_taken(alloc, tables, table, row)?)
}

// The write of a row of the table of this id, if it may come to the others.
fn write_to(
    alloc: Global,
    tables: &Tables,
    id: u32,
    key: Row,
    row: Row,
) -> Result<Option<Write>, NoMemory>
    requires sound { AreSound tables.now.tables }
    ensures { IfOk result (λ found. found ≡
        write_to (table_of (definitions_of tables.now.tables) id) tables.now.tables id key row) }
{
    match tables.dict().def(id) {
        None => Ok(None),
        Some(table) => {
            if !may_come(alloc, tables, table, &key, &row)? {
                return Ok(None);
            }
            Ok(Some(Write {
                table: id,
                key,
                row: Some(row),
            }))
        }
    }
}

// The write of the row that a pair says, if it may come to the others.
fn write_of(
    alloc: Global,
    tables: &Tables,
    key: &Bytes,
    value: &Bytes,
) -> Result<Option<Write>, NoMemory>
    requires sound { AreSound tables.now.tables }
    ensures { IfOk result (λ found. found ≡ write_of_pair tables.now.tables (key.now, value.now)) }
{
    if tables.count() >= MAX_LIVE_ROWS {
        return Ok(None);
    }
    let place = row_place_in(alloc, key.bytes())?;
    let Some((id, primary)) = place else {
        return Ok(None);
    };
    let row = row_in(alloc, value.bytes())?;
    match row {
        None => Ok(None),
        Some(row) => write_to(alloc, tables, id, primary, row),
    }
}

fn one_write(alloc: Global, write: Write) -> Result<Writes, NoMemory>
    ensures { IfOk result (λ writes. writes ≡ write ∷ []) }
{
    let Ok(items) = vec![in alloc; write] else {
        return Err(NoMemory);
    };
    Ok(Writes::of(items))
}

// The tables with one row more.
fn put_row(alloc: Global, tables: Tables, write: Write) -> Result<Tables, NoMemory>
    requires sound { AreSound tables.tables }
    requires sound_then { AreSound (overlaid tables.tables (write ∷ [])) }
    requires of_tables { IsTrue (are_of (definitions_of tables.tables) (write ∷ [])) }
    requires few { row_count (overlaid tables.tables (write ∷ [])) ≤ live_row_limit }
    ensures written { IfOk result (λ after. after.tables ≡ overlaid tables.tables (write ∷ [])) }
    ensures dictionary { IfOk result (λ after. after.dictionary ≡ tables.dictionary) }
{
    let writes = one_write(alloc, write)?;
    match tables.written(&writes) {
        Ok(after) => Ok(after),
        Err(StoreFault::RowLimit) => unreachable!(),
        Err(StoreFault::Memory) => Err(NoMemory),
    }
}

fn no_rows(alloc: Global, dict: Dict) -> Result<Tables, NoMemory>
    ensures empty { IfOk result (λ tables. tables.tables ≡ empty_tables dict.tables) }
    ensures dictionary { IfOk result (λ tables. tables.dictionary ≡ dict) }
{
    match Tables::new(alloc, dict) {
        Ok(tables) => Ok(tables),
        Err((NoMemory, _dict)) => Err(NoMemory),
    }
}

/// The tables of this dictionary with the rows.
pub(crate) fn read_rows<K: Keeper>(
    alloc: Global,
    keeper: &mut K,
    dict: Dict,
) -> Result<Tables, LoadFault>
    requires tables { AllByRecursion IsTable dict.tables }
    ensures read { Told (K.holds keeper.old) (λ pairs. Reads (λ tables. tables.tables) result (rows_in dict.tables pairs)) }
    // Of a keeper that tells nothing, too.
    ensures rows { IfOk result AreRowsIn }
    ensures few { IfOk result (λ tables. row_count tables.tables ≤ live_row_limit) }
    ensures dictionary { IfOk result (λ tables. tables.dictionary ≡ dict) }
    ensures defined { IfOk result (λ tables. definitions_of tables.tables ≡ dict.tables) }
    ensures same { K.holds keeper.new ≡ K.holds keeper.old }
    ensures failed { result ≡ Err KeeperFault → Rose (K.faults keeper.old) (K.faults keeper.new) }
    ensures none_passed_over { result ≢ Err KeeperFault →
        NoneCounted K.counts_failures_alone (K.faults keeper.old) (K.faults keeper.new) }
    ensures count { K.faults keeper.old ≤ K.faults keeper.new }
{
    let mut tables = no_rows(alloc, dict)?;
    let mut last = Bytes::of(Vec::new(alloc));
    for _ in 0..u64::MAX {
        let found = next(keeper, 5, &last)?;
        let Some(pair) = found else {
            // No more rows are there than may be live.
            let _count = tables.count();
            return Ok(tables);
        };
        // Its tables are those of the dictionary, in its order.
        let _dict = tables.dict().tables();
        hold_bytes(&pair.key);
        hold_bytes(&pair.value);
        let taken = write_of(alloc, &tables, &pair.key, &pair.value)?;
        let Some(write) = taken else {
            return Err(LoadFault::BadKeeper {
                area: 5,
                key: pair.key,
            });
        };
        tables = put_row(alloc, tables, write)?;
        last = pair.key;
    }
    // No area has so many pairs; the answer without a cause stands for it.
    Err(LoadFault::Memory)
}
