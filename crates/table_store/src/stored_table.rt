//! One table: its definition, its rows, and the indexes of its unique keys, which callers do not see.
ghost use Rattle.std.specs.Prelude.{◌≡◌, ◌<◌, ◌≤◌, [], IfOk, IsTrue, length, false, map};
ghost use Rattle.std.specs.List.{list_any};
ghost use Rattle.std.specs.Option.{option_copied};
ghost use Rattle.std.specs.FinMap.Entries.{find, is_sorted};
ghost use Rattle.rl_value.specs.Order.{row_cmp};
ghost use Rattle.redo_spec.specs.ConflictKeys.{is_null};
ghost use Rattle.redo_spec.specs.Fold.{live_row_limit};
ghost use Rattle.redo_spec.specs.Tables.{owner_in};
ghost use Rattle.row_apply.specs.Found.{key_columns};
ghost use Rattle.row_apply.specs.Overlaid.{table_after, writes_rise};
ghost use Rattle.row_apply.specs.Soundness.{AreSoundRows};

use crate::kept_rows::KeptRows;
use crate::row_list::RowList;
use redo_vec::{KeyColumns, TableRow};
use rl_value::{Key, NoMemory, Row};
use row_apply::{Write, unique_keys};
use row_tree::Tree;
use std::alloc::Global;
use std::marker::Model;
use std::sync::Arc;

/// A table, seen as its definition and its rows.
#[derive(Drop)]
pub(crate) struct StoredTable {
    alloc: Global,
    definition: Arc<TableRow>,
    kept: KeptRows,
}

impl Model for StoredTable {
    ghost use Rattle.std.specs.Prelude.{◌≡◌, [], length};
    ghost use Rattle.std.specs.Arc.{arc_value};
    ghost use Rattle.redo_spec.specs.Dictionary.{uniques_of};
    ghost use Rattle.redo_spec.specs.Tables.{Table};
    ghost use Rattle.table_store.specs.Leads.{AreLedBut};

    ghost Value = { Table };

    ghost view = { λ t. record { row = arc_value t.definition; rows = t.kept.rows } };

    ghost invariant = { λ t. AreLedBut (uniques_of (arc_value t.definition)) [] t.kept.rows t.kept.uniques.items ×
        (t.kept.count ≡ length t.kept.rows) };
}

fn no_indexes(alloc: Global, keys: &[KeyColumns]) -> Result<Vec<Tree>, NoMemory>
    ensures none { IfOk result (λ indexes. indexes.items ≡ map (λ _. []) keys.now) }
{
    let Ok(mut indexes) = Vec::with_capacity(alloc, keys.len()) else {
        return Err(NoMemory);
    };
    for _columns in keys {
        if indexes.push(Tree::new(alloc)).is_err() {
            return Err(NoMemory);
        }
    }
    Ok(indexes)
}

fn copied(alloc: Global, indexes: &[Tree]) -> Result<Vec<Tree>, NoMemory>
    ensures equal { IfOk result (λ copies. copies.items ≡ indexes.now) }
{
    let Ok(mut copies) = Vec::with_capacity(alloc, indexes.len()) else {
        return Err(NoMemory);
    };
    for index in indexes {
        let copy = index.snapshot()?;
        if copies.push(copy).is_err() {
            return Err(NoMemory);
        }
    }
    Ok(copies)
}

impl StoredTable {
    /// This table, without rows.
    pub(crate) fn new(alloc: Global, definition: TableRow) -> Result<StoredTable, NoMemory>
        ensures empty { IfOk result (λ table. table ≡ record { row = definition; rows = [] }) }
    {
        let uniques = no_indexes(alloc, unique_keys(&definition))?;
        let Ok(definition) = Arc::new(alloc, definition) else {
            return Err(NoMemory);
        };
        Ok(StoredTable {
            alloc,
            definition,
            kept: KeptRows {
                rows: Tree::new(alloc),
                uniques,
                count: 0,
            },
        })
    }

    /// How it is defined.
    pub(crate) fn definition(&self) -> &TableRow
        ensures same { result.now ≡ self.now.row }
    {
        &self.definition
    }

    /// How many rows it has.
    pub(crate) fn count(&self) -> u64
        ensures exact { result ≡ length self.now.rows }
    {
        self.kept.count
    }

    /// How many rows it has behind those of the writes that are of it.
    pub(crate) fn count_after(&self, writes: &[Write]) -> u64
        requires writes_rise { IsTrue (writes_rise writes.now) }
        requires rising { IsTrue (is_sorted row_cmp self.now.rows) }
        requires few { length self.now.rows ≤ live_row_limit }
        ensures exact { result ≡ length (table_after writes.now self.now).rows }
    {
        self.kept.count_after(self.definition.id, writes)
    }

    /// The row with this primary key.
    pub(crate) fn get(&self, key: &Row) -> Option<&Row>
        ensures found { option_copied result ≡ find row_cmp key.now self.now.rows }
    {
        self.kept.rows.get(key)
    }

    /// The primary key of the row that has this value of a unique key.
    pub(crate) fn owner(&self, key: &Key) -> Option<&Row>
        requires unique { 0 < key.now.index }
        requires inside { key.now.index < length self.now.row.keys }
        requires filled { list_any is_null key.now.values ≡ false }
        ensures owner { AreSoundRows self.now.row self.now.rows → option_copied result ≡
            owner_in self.now.rows (key_columns self.now.row key.now.index) key.now.values }
    {
        self.kept
            .owner(&self.definition, key.index as usize, &key.values)
    }

    /// Its rows, in rising order of its primary key.
    pub(crate) fn rows(&self) -> RowList<'_>
        ensures rows { result ≡ map (λ r. r.1) self.now.rows }
    {
        RowList::of(self.kept.rows.entries())
    }

    /// An equal table, which shares the blocks.
    pub(crate) fn copy(&self) -> Result<StoredTable, NoMemory>
        ensures equal { IfOk result (λ table. table ≡ self.now) }
    {
        let uniques = copied(self.alloc, self.kept.uniques.as_slice())?;
        let rows = self.kept.rows.snapshot()?;
        let Ok(definition) = Arc::try_clone(&self.definition) else {
            return Err(NoMemory);
        };
        Ok(StoredTable {
            alloc: self.alloc,
            definition,
            kept: KeptRows {
                rows,
                uniques,
                count: self.kept.count,
            },
        })
    }

    /// The table after those of the writes that are of it.
    pub(crate) fn write_all(self, writes: &[Write]) -> Result<StoredTable, NoMemory>
        requires writes_rise { IsTrue (writes_rise writes.now) }
        requires sound { AreSoundRows self.row self.rows }
        requires sound_then { AreSoundRows self.row (table_after writes.now self).rows }
        ensures written { IfOk result (λ table. table ≡ table_after writes.now self) }
    {
        let StoredTable {
            alloc,
            definition,
            kept,
        } = self;
        let kept = kept.write_all(alloc, &definition, writes)?;
        Ok(StoredTable {
            alloc,
            definition,
            kept,
        })
    }
}
