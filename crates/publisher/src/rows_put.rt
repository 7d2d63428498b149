//! A row that is put by itself, made ready: a row of the base before the redo's first commit, or a row of a user.
//!
//! Both are put where no other row has one of its unique values, and where they are not too many. A row of the base comes to a
//! key that has none, and a row of a user takes the place of one with its key.
ghost use Rattle.std.specs.Prelude.{◌≡◌, ◌<◌, ◌∷◌, [], true, IfOk, IsSome, IsErrOf};
ghost use Rattle.redo_spec.specs.Dictionary.{table_of};
ghost use Rattle.redo_spec.specs.Tables.{primary_key as key_of_row, definitions_of};
ghost use Rattle.row_apply.specs.Overlaid.{overlaid};
ghost use Rattle.row_apply.specs.Soundness.{AreSound};
ghost use Rattle.table_store.specs.declared.fault.StoreFault.TheVariants.{RowLimit as TooManyRows};
ghost use Rattle.standby_spec.specs.Writable.{can_be_written, rows_fit};
ghost use Rattle.standby_spec.specs.Writings.{PutRow, row_write};
ghost use Rattle.standby_spec.specs.Refusals.{base_refusal, local_refusal, passes_limit, has_row};
ghost use Rattle.checkpoint.specs.Images.{image_state};
ghost use Rattle.publisher.specs.Parts.{FitsTable};
ghost use Rattle.publisher.specs.Prepares.{PreparesWriting, PreparesRows, PreparesPut};

use crate::batches::rows_batch;
use crate::fault::PubFault;
use crate::next::Next;
use crate::prepared::Prepared;
use checkpoint::Image;
use constraint_check::meets_constraints;
use redo_vec::TableRow;
use rl_value::{Key, NoMemory, Row};
use row_apply::{Rows, Write, Writes, key_row};
use standby_spec::laws::written_rows_are_sound;
use std::alloc::Global;
use table_store::{StoreFault, Tables};

fn primary_key(alloc: Global, table: &TableRow, row: &Row) -> Result<Row, NoMemory>
    ensures key { IfOk result (λ key. key ≡ key_of_row table.now row.now) }
{
    match table.keys.items() {
        [] => unreachable!(),
        [primary, ..] => key_row(alloc, row, primary),
    }
}

// The write that puts the row under its primary key.
fn write_of(alloc: Global, tables: &Tables, id: u32, row: Row) -> Result<Write, NoMemory>
    requires there { IsSome (table_of (definitions_of tables.now.tables) id) }
    ensures write { IfOk result (λ write. write ≡ row_write tables.now.tables id row) }
{
    let Some(table) = tables.dict().def(id) else {
        unreachable!()
    };
    let key = primary_key(alloc, table, &row)?;
    Ok(Write {
        table: id,
        key,
        row: Some(row),
    })
}

fn one_write(alloc: Global, write: Write) -> Result<Writes, NoMemory>
    ensures one { IfOk result (λ writes. writes ≡ write ∷ []) }
{
    let mut items = Vec::new(alloc);
    if items.push(write).is_err() {
        return Err(NoMemory);
    }
    Ok(Writes::of(items))
}

/// The tables with the writes put in place, where they may be and are not too many.
pub(crate) fn tables_with(tables: &Tables, writes: &Writes) -> Result<Tables, StoreFault>
    requires sound { AreSound tables.now.tables }
    requires can { can_be_written tables.now.tables writes.now ≡ true }
    ensures written { IfOk result (λ after. after.tables ≡ overlaid tables.now.tables writes.now) }
    ensures sound { IfOk result (λ after. AreSound after.tables) }
    ensures row_limit { IsErrOf result TooManyRows → passes_limit tables.now.tables writes.now ≡ true }
{
    // Their ids rise, and so writes that may be put in place leave sound tables.
    let _definitions = tables.dict().tables();
    written_rows_are_sound();
    tables.with(writes)
}

// What writes that may be put in place lead to.
fn prepare_writes(alloc: Global, tables: &Tables, writes: &Writes) -> Result<Prepared, PubFault>
    requires sound { AreSound tables.now.tables }
    requires can { can_be_written tables.now.tables writes.now ≡ true }
    ensures prepared { PreparesRows tables.now.tables writes.now result }
{
    if !tables.fits(writes) {
        return Err(PubFault::RowLimit);
    }
    let Ok(batch) = rows_batch(alloc, writes.items()) else {
        return Err(PubFault::Memory);
    };
    match tables_with(tables, writes) {
        Ok(tables) => Ok(Prepared {
            next: Next::Rows(tables),
            batch,
        }),
        Err(StoreFault::RowLimit) => Err(PubFault::RowLimit),
        Err(StoreFault::Memory) => Err(PubFault::Memory),
    }
}

// The row is put, unless another row has one of its unique values or there are too many rows.
fn prepare_put(alloc: Global, tables: &Tables, write: Write) -> Result<Prepared, PubFault>
    requires sound { AreSound tables.now.tables }
    requires fits { rows_fit tables.now.tables (write ∷ []) ≡ true }
    ensures prepared { PreparesPut tables.now.tables write result }
{
    let Ok(writes) = one_write(alloc, write) else {
        return Err(PubFault::Memory);
    };
    match meets_constraints(alloc, tables.dict(), tables, &writes) {
        Err(NoMemory) => Err(PubFault::Memory),
        Ok(false) => Err(PubFault::Taken),
        Ok(true) => prepare_writes(alloc, tables, &writes),
    }
}

/// A row of a user is put, in the place of one with its key.
pub(crate) fn prepare_local(
    alloc: Global,
    image: &Image,
    id: u32,
    row: Row,
) -> Result<Prepared, PubFault>
    requires sound { AreSound (image_state image.now).tables }
    requires fits { FitsTable (image_state image.now).tables id row }
    ensures prepared { PreparesWriting (PutRow id row) (image_state image.now)
        (local_refusal (image_state image.now) id row) result }
{
    match write_of(alloc, &image.tables, id, row) {
        Err(NoMemory) => Err(PubFault::Memory),
        Ok(write) => prepare_put(alloc, &image.tables, write),
    }
}

// A row stands under the key of the one that is to be written.
fn has_row(tables: &Tables, write: &Write) -> Result<bool, NoMemory>
    requires there { IsSome (table_of (definitions_of tables.now.tables) write.now.table) }
    ensures exact { IfOk result (λ found. found ≡ has_row tables.now.tables write.now.table write.now.key) }
{
    let key = Key {
        table: write.table,
        index: 0,
        values: write.key.copy()?,
    };
    Ok(tables.get(&key).is_some())
}

/// A row of the base is put, unless one with its key is there.
pub(crate) fn prepare_base(
    alloc: Global,
    image: &Image,
    id: u32,
    row: Row,
) -> Result<Prepared, PubFault>
    requires sound { AreSound (image_state image.now).tables }
    requires fits { FitsTable (image_state image.now).tables id row }
    ensures prepared { PreparesWriting (PutRow id row) (image_state image.now)
        (base_refusal (image_state image.now) id row) result }
{
    let Ok(write) = write_of(alloc, &image.tables, id, row) else {
        return Err(PubFault::Memory);
    };
    match has_row(&image.tables, &write) {
        Err(NoMemory) => Err(PubFault::Memory),
        Ok(true) => Err(PubFault::Exists),
        Ok(false) => prepare_put(alloc, &image.tables, write),
    }
}
