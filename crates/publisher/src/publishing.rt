//! A commit that is to be published, made ready.
//!
//! Its writes are put in place together. Where they may not be, as only devices that do not tell what they hold can lead there,
//! the commit is published without them: it counts, and its SCN is applied.
ghost use Rattle.std.specs.Prelude.{◌≡◌, ◌+◌, ◌==◌, true, false};
ghost use Rattle.row_apply.specs.Soundness.{AreSound};
ghost use Rattle.standby_spec.specs.Writable.{can_be_written};
ghost use Rattle.standby_spec.specs.Writings.{Publish};
ghost use Rattle.standby_spec.specs.Refusals.{publish_refusal};
ghost use Rattle.checkpoint.specs.Images.{image_state};
ghost use Rattle.publisher.specs.Prepares.{PreparesWriting};

use crate::batches::commit_batch;
use crate::fault::PubFault;
use crate::next::Next;
use crate::prepared::Prepared;
use crate::rows_put::tables_with;
use checkpoint::Image;
use constraint_check::meets_constraints;
use eager_work::Commit;
use rl_value::NoMemory;
use row_apply::Write;
use row_apply::laws::no_writes_change_nothing;
use std::alloc::Global;
use table_store::StoreFault;

/// The number is the one behind this count.
pub(crate) fn is_next(n: u64, number: u64) -> bool
    ensures exact { result ≡ (number == n + 1) }
{
    number > 0 && number - 1 == n
}

fn prepare_with_rows(alloc: Global, image: &Image, commit: &Commit) -> Result<Prepared, PubFault>
    requires sound { AreSound (image_state image.now).tables }
    requires next { commit.now.number ≡ image.now.n + 1 }
    requires can { can_be_written (image_state image.now).tables commit.now.writes ≡ true }
    ensures prepared { PreparesWriting (Publish commit.now.scn commit.now.writes) (image_state image.now)
        (publish_refusal (image_state image.now) commit.now.number commit.now.writes) result }
{
    if !image.tables.fits(&commit.writes) {
        return Err(PubFault::RowLimit);
    }
    let writes = commit.writes.items();
    let Ok(batch) = commit_batch(alloc, writes, commit.number, commit.scn) else {
        return Err(PubFault::Memory);
    };
    match tables_with(&image.tables, &commit.writes) {
        Ok(tables) => Ok(Prepared {
            next: Next::Commits {
                tables,
                n: commit.number,
                scn: commit.scn,
            },
            batch,
        }),
        Err(StoreFault::RowLimit) => Err(PubFault::RowLimit),
        Err(StoreFault::Memory) => Err(PubFault::Memory),
    }
}

fn prepare_without_rows(alloc: Global, image: &Image, commit: &Commit) -> Result<Prepared, PubFault>
    requires sound { AreSound (image_state image.now).tables }
    requires next { commit.now.number ≡ image.now.n + 1 }
    requires cannot { can_be_written (image_state image.now).tables commit.now.writes ≡ false }
    ensures prepared { PreparesWriting (Publish commit.now.scn commit.now.writes) (image_state image.now)
        (publish_refusal (image_state image.now) commit.now.number commit.now.writes) result }
{
    no_writes_change_nothing();
    // They are no more than the limit.
    let _count = image.tables.count();
    let none: &[Write] = &[];
    let Ok(batch) = commit_batch(alloc, none, commit.number, commit.scn) else {
        return Err(PubFault::Memory);
    };
    match image.tables.snapshot() {
        Ok(tables) => Ok(Prepared {
            next: Next::Commits {
                tables,
                n: commit.number,
                scn: commit.scn,
            },
            batch,
        }),
        Err(NoMemory) => Err(PubFault::Memory),
    }
}

/// A commit is published, where its number is the next one.
pub(crate) fn prepare_commit(
    alloc: Global,
    image: &Image,
    commit: &Commit,
) -> Result<Prepared, PubFault>
    requires sound { AreSound (image_state image.now).tables }
    ensures prepared { PreparesWriting (Publish commit.now.scn commit.now.writes) (image_state image.now)
        (publish_refusal (image_state image.now) commit.now.number commit.now.writes) result }
{
    if !is_next(image.n, commit.number) {
        return Err(PubFault::NotNext(image.n));
    }
    match meets_constraints(alloc, image.tables.dict(), &image.tables, &commit.writes) {
        Err(NoMemory) => Err(PubFault::Memory),
        Ok(true) => prepare_with_rows(alloc, image, commit),
        Ok(false) => prepare_without_rows(alloc, image, commit),
    }
}
