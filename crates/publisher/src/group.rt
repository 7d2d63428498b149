//! Commits that are published together, made ready: the tables behind the last of them, and one batch.
ghost use Rattle.std.specs.Prelude.{◌≡◌, ◌≤◌, ◌<◌, ◌+◌, length, true, false, IfOk, IfErr, IsErrOf};
ghost use Rattle.row_apply.specs.Overlaid.{overlaid};
ghost use Rattle.row_apply.specs.Soundness.{AreSound};
ghost use Rattle.table_store.specs.declared.fault.StoreFault.TheVariants.{RowLimit as TooManyRows};
ghost use Rattle.standby_spec.specs.Writable.{can_be_written};
ghost use Rattle.standby_spec.specs.Writings.{writable};
ghost use Rattle.standby_spec.specs.Refusals.{passes_limit, group_refusal};
ghost use Rattle.checkpoint.specs.Images.{image_state};
ghost use Rattle.publisher.specs.Groups.{IsGroup, first_number, grouped_of, parts_of};
ghost use Rattle.publisher.specs.MergedRows.{entered_all};
ghost use Rattle.publisher.specs.PreparesGroup.{PreparesGroup, TakesGroup, last_number, last_scn};

use crate::batches::applied_batch;
use crate::commit::Commits;
use crate::fault::{GroupFault, PubFault};
use crate::merged::Merged;
use crate::next::Next;
use crate::prepared::Prepared;
use crate::publishing::is_next;
use checkpoint::Image;
use constraint_check::meets_constraints;
use eager_work::Commit;
use rl_value::{NoMemory, Scn};
use row_apply::Writes;
use row_apply::laws::no_writes_change_nothing;
use standby_spec::laws::written_rows_are_sound;
use std::alloc::Global;
use table_store::{StoreFault, Tables};

// The tables behind one more commit, whose rows are entered; or as they were, where its writes may not be put in place.
fn tables_behind(
    alloc: Global,
    tables: Tables,
    merged: &mut Merged,
    writes: &Writes,
) -> Result<Tables, StoreFault>
    requires sound { AreSound tables.tables }
    ensures written { IfOk result (λ after. after.tables ≡ overlaid tables.tables (writable tables.tables writes.now)) }
    ensures sound { IfOk result (λ after. AreSound after.tables) }
    ensures few { IfOk result (λ after. passes_limit tables.tables (writable tables.tables writes.now) ≡ false) }
    ensures merged { IfOk result (λ after. merged.new.items.entries ≡
        entered_all merged.old.items.entries (writable tables.tables writes.now)) }
    ensures row_limit { IsErrOf result TooManyRows → passes_limit tables.tables (writable tables.tables writes.now) ≡ true }
{
    no_writes_change_nothing();
    match meets_constraints(alloc, tables.dict(), &tables, writes) {
        Err(NoMemory) => Err(StoreFault::Memory),
        Ok(false) => Ok(tables),
        Ok(true) => {
            if !tables.fits(writes) {
                return Err(StoreFault::RowLimit);
            }
            match merged.enter_all(writes.items()) {
                Err(NoMemory) => Err(StoreFault::Memory),
                Ok(()) => {
                    // Their ids rise, and so writes that may be put in place leave sound tables.
                    let _definitions = tables.dict().tables();
                    written_rows_are_sound();
                    tables.written(writes)
                }
            }
        }
    }
}

// The tables behind all of the commits, and their rows, each once; or how many commits come before one with too many rows.
fn rows_behind(
    alloc: Global,
    tables: &Tables,
    commits: &[Commit],
) -> Result<(Tables, Merged), GroupFault>
    requires sound { AreSound tables.now.tables }
    requires few { length commits.now ≤ 64 }
    ensures taken { TakesGroup tables.now.tables commits.now result }
{
    let Ok(mut after) = tables.snapshot() else {
        return Err(GroupFault::Memory);
    };
    let mut merged = Merged::new(alloc);
    let mut count: u64 = 0;
    for commit in commits {
        after = match tables_behind(alloc, after, &mut merged, &commit.writes) {
            Ok(tables) => tables,
            Err(StoreFault::RowLimit) => return Err(GroupFault::RowLimitAfter(count)),
            Err(StoreFault::Memory) => return Err(GroupFault::Memory),
        };
        count += 1;
    }
    Ok((after, merged))
}

// The count and the SCN behind the last of them.
fn last_of(commits: &[Commit]) -> (u64, Scn)
    requires some { 1 ≤ length commits.now }
    ensures last { result ≡ (last_number commits.now, last_scn commits.now) }
{
    match commits {
        [] => unreachable!(),
        [.., last] => (last.number, last.scn),
    }
}

/// Commits are published together, where the first one's number is the next one.
pub(crate) fn prepare_group(
    alloc: Global,
    image: &Image,
    commits: &Commits,
) -> Result<Prepared, GroupFault>
    requires sound { AreSound (image_state image.now).tables }
    ensures prepared { PreparesGroup (image_state image.now) commits.now
        (group_refusal (image_state image.now) (first_number commits.now) (parts_of commits.now)) result }
{
    let items = commits.items();
    let first = &items[0];
    if !is_next(image.n, first.number) {
        return Err(GroupFault::NotNext(image.n));
    }
    let (tables, merged) = rows_behind(alloc, &image.tables, items)?;
    let (n, scn) = last_of(items);
    let Ok(rows) = merged.into_items() else {
        return Err(GroupFault::Memory);
    };
    match applied_batch(alloc, rows, n, scn) {
        Err(NoMemory) => Err(GroupFault::Memory),
        Ok(batch) => Ok(Prepared {
            next: Next::Commits { tables, n, scn },
            batch,
        }),
    }
}

/// The answer of the store's one commit, as that of a group. There is no reason against the commit any more.
pub(crate) fn grouped(kept: Result<(), PubFault>) -> Result<(), GroupFault>
    ensures exact { result ≡ grouped_of kept }
{
    match kept {
        Ok(()) => Ok(()),
        Err(PubFault::KeeperFault) => Err(GroupFault::KeeperFault),
        Err(PubFault::NotNext(_) | PubFault::Early(_) | PubFault::RowLimit) => {
            Err(GroupFault::Memory)
        }
        Err(PubFault::Exists | PubFault::Taken | PubFault::Twice) => Err(GroupFault::Memory),
        Err(PubFault::Limit | PubFault::Memory) => Err(GroupFault::Memory),
    }
}
