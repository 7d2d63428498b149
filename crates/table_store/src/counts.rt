//! How many rows there will be behind writes, before anything is written.
ghost use Rattle.std.specs.Prelude.{◌≡◌, ◌+◌, ◌-◌, ◌≤◌, ◌<◌, ◌^◌, ◌*◌, ◌==◌, ◌&&◌, not, nat_le, IfSome, IsTrue, length, is_some, true, None};
ghost use Rattle.std.specs.FinMap.Entries as entries;
ghost use Rattle.rl_value.specs.Order.{row_cmp};
ghost use Rattle.redo_spec.specs.Fold.{live_row_limit};
ghost use Rattle.redo_spec.specs.Tables.{definitions_of, row_count};
ghost use Rattle.row_apply.specs.Overlaid.{overlaid, rows_after, writes_rise};
ghost use Rattle.row_apply.specs.Soundness.{AreSound};
ghost use Rattle.table_store.specs.Counts.{is_added, is_removed, added_in, removed_in};
ghost use Rattle.table_store.specs.Leads.{count_of};
ghost use Rattle.table_store.specs.Shared.{tables_in};

use row_apply::Write;
use row_tree::Tree;

fn is_added(rows: &Tree, id: u32, write: &Write) -> bool
    ensures exact { result ≡ is_added id write.now rows.now }
{
    write.table == id && write.row.is_some() && rows.get(&write.key).is_none()
}

fn is_removed(rows: &Tree, id: u32, write: &Write) -> bool
    ensures exact { result ≡ is_removed id write.now rows.now }
{
    write.table == id && write.row.is_none() && rows.get(&write.key).is_some()
}

fn one_if(holds: bool) -> u64
    ensures exact { result ≡ count_of holds }
{
    if holds { 1 } else { 0 }
}

// How many of the writes are of this table and put a row where none is.
pub(crate) fn count_added(rows: &Tree, id: u32, writes: &[Write]) -> u64
    ensures exact { result ≡ added_in id writes.now rows.now }
    ensures small { result < 2 ^ 63 }
{
    let mut added = 0;
    let mut rest = writes;
    while let [write, others @ ..] = rest {
        added += one_if(is_added(rows, id, write));
        rest = others;
    }
    added
}

// How many of the writes are of this table and take a row away.
pub(crate) fn count_removed(rows: &Tree, id: u32, writes: &[Write]) -> u64
    ensures exact { result ≡ removed_in id writes.now rows.now }
{
    let mut removed = 0;
    let mut rest = writes;
    while let [write, others @ ..] = rest {
        removed += one_if(is_removed(rows, id, write));
        rest = others;
    }
    removed
}
