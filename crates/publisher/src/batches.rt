//! The batch of the one commit of the store that each call makes.
//!
//! What is put and dropped, and under which keys, is `standby_spec`'s (Writings), and each item is made by `kept_layout`.
ghost use Rattle.std.specs.Prelude.{◌≡◌, ◌∷◌, ◌++◌, [], map, IfOk, OnOk};
ghost use Rattle.skip_guard.specs.Rules.{skip_of};
ghost use Rattle.standby_spec.specs.Layout as layout;
ghost use Rattle.standby_spec.specs.Writings as writings;
ghost use Rattle.kept_layout.specs.Pairs.{identity_item};

use kept_layout::{
    Identity, applied_item, log_item, mark_item, skip_item, standby_item, table_item, write_item,
};
use log_registry::LogEntry;
use redo_vec::TableRow;
use rl_ports::{Batch, Item};
use rl_value::{NoMemory, Scn};
use row_apply::Write;
use skip_guard::SkipEntry;
use standby_spec::Mark;
use std::alloc::Global;

fn one_item(alloc: Global, item: Item) -> Result<Batch, NoMemory>
    ensures one { IfOk result (λ batch. batch ≡ item ∷ []) }
{
    let mut items = Vec::new(alloc);
    if items.push(item).is_err() {
        return Err(NoMemory);
    }
    Ok(Batch::of(items))
}

/// Puts the standby itself.
pub(crate) fn identity_batch(alloc: Global, identity: Identity) -> Result<Batch, NoMemory>
    ensures items { IfOk result (λ batch. batch ≡ identity_item identity ∷ []) }
{
    let item = standby_item(alloc, identity)?;
    one_item(alloc, item)
}

/// Puts a registered log.
pub(crate) fn log_batch(alloc: Global, entry: LogEntry) -> Result<Batch, NoMemory>
    ensures items { IfOk result (λ batch. batch ≡ layout.log_item entry ∷ []) }
{
    let item = log_item(alloc, entry)?;
    one_item(alloc, item)
}

/// Puts the skip rule of this number.
pub(crate) fn skip_batch(alloc: Global, number: u32, entry: &SkipEntry) -> Result<Batch, NoMemory>
    ensures items { IfOk result (λ batch. batch ≡ layout.skip_item number (skip_of entry.now) ∷ []) }
{
    let item = skip_item(alloc, number, entry)?;
    one_item(alloc, item)
}

/// Puts a mark.
pub(crate) fn mark_batch(alloc: Global, mark: Mark) -> Result<Batch, NoMemory>
    ensures items { IfOk result (λ batch. batch ≡ layout.mark_item mark ∷ []) }
{
    let item = mark_item(alloc, mark)?;
    one_item(alloc, item)
}

fn push(items: &mut Vec<Item>, item: Item) -> Result<(), NoMemory>
    ensures pushed { OnOk result (items.new.items ≡ items.old.items ++ item ∷ []) }
{
    match items.push(item) {
        Ok(()) => Ok(()),
        Err(_) => Err(NoMemory),
    }
}

fn write_items(alloc: Global, writes: &[Write]) -> Result<Vec<Item>, NoMemory>
    ensures items { IfOk result (λ items. items.items ≡ map writings.write_item writes.now) }
{
    let Ok(mut items) = Vec::with_capacity(alloc, writes.len()) else {
        return Err(NoMemory);
    };
    for write in writes {
        let item = write_item(alloc, write)?;
        if items.push(item).is_err() {
            return Err(NoMemory);
        }
    }
    Ok(items)
}

/// Puts and drops written rows.
pub(crate) fn rows_batch(alloc: Global, writes: &[Write]) -> Result<Batch, NoMemory>
    ensures items { IfOk result (λ batch. batch ≡ map writings.write_item writes.now) }
{
    let items = write_items(alloc, writes)?;
    Ok(Batch::of(items))
}

/// These items of rows, and a commit's count and SCN behind them.
pub(crate) fn applied_batch(
    alloc: Global,
    rows: Vec<Item>,
    n: u64,
    scn: Scn,
) -> Result<Batch, NoMemory>
    ensures items { IfOk result (λ batch. batch ≡ rows.items ++ layout.applied_item n scn ∷ []) }
{
    let mut items = rows;
    let applied = applied_item(alloc, n, scn)?;
    push(&mut items, applied)?;
    Ok(Batch::of(items))
}

/// Puts and drops the rows of a commit, and puts its count and SCN behind them.
pub(crate) fn commit_batch(
    alloc: Global,
    writes: &[Write],
    n: u64,
    scn: Scn,
) -> Result<Batch, NoMemory>
    ensures items { IfOk result (λ batch. batch ≡ map writings.write_item writes.now ++ layout.applied_item n scn ∷ []) }
{
    let rows = write_items(alloc, writes)?;
    applied_batch(alloc, rows, n, scn)
}

fn push_tables(alloc: Global, items: &mut Vec<Item>, tables: &[TableRow]) -> Result<(), NoMemory>
    ensures pushed { OnOk result (items.new.items ≡ items.old.items ++ map layout.table_item tables.now) }
{
    for table in tables {
        let item = table_item(alloc, table)?;
        push(items, item)?;
    }
    Ok(())
}

/// Puts a whole standby: itself, its first log, the tables of its dictionary, and that no commit is applied.
pub(crate) fn standby_batch(
    alloc: Global,
    identity: Identity,
    entry: LogEntry,
    tables: &[TableRow],
) -> Result<Batch, NoMemory>
    ensures items { IfOk result (λ batch. batch ≡ (identity_item identity ∷ layout.log_item entry ∷ []) ++
        (map layout.table_item tables.now ++ layout.applied_item 0 identity.base ∷ [])) }
{
    let mut items = Vec::new(alloc);
    let standby = standby_item(alloc, identity)?;
    push(&mut items, standby)?;
    let log = log_item(alloc, entry)?;
    push(&mut items, log)?;
    push_tables(alloc, &mut items, tables)?;
    let applied = applied_item(alloc, 0, identity.base)?;
    push(&mut items, applied)?;
    Ok(Batch::of(items))
}
