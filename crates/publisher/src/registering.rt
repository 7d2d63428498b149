//! Calls that change no row, made ready: a standby, a log, a skip rule, the level of the guard, a mark.
ghost use Rattle.std.specs.Prelude.{◌≡◌, ◌≤◌, ◌<◌, ◌++◌, ◌∷◌, [], None, length, nat_le, IfOk, OnErr};
ghost use Rattle.skip_guard.specs.Rules.{rule_of, skip_of};
ghost use Rattle.log_registry.specs.Registered.{entry_of, with_log};
ghost use Rattle.row_apply.specs.Soundness.{AreSound};
ghost use Rattle.standby_spec.specs.Writings.{AddLog, AddSkip, SetLevel, KeepMark, log_limit, created_state, created_items};
ghost use Rattle.standby_spec.specs.Refusals.{log_refusal, skip_refusal, mark_refusal};
ghost use Rattle.standby_spec.specs.Publishing.{Refused};
ghost use Rattle.checkpoint.specs.Images.{image_state};
ghost use Rattle.publisher.specs.Endings.{ending_of, Refuses};
ghost use Rattle.publisher.specs.Parts.{first_identity, skip_reason, skip_fault_of};
ghost use Rattle.publisher.specs.Prepares.{Prepares, PreparesWriting};

use crate::batches::{identity_batch, log_batch, mark_batch, skip_batch, standby_batch};
use crate::fault::PubFault;
use crate::next::Next;
use crate::prepared::Prepared;
use checkpoint::{Image, Mark};
use kept_layout::Identity;
use log_registry::{LogEntry, Registry};
use redo_dict::Dict;
use rl_value::NoMemory;
use row_apply::laws::tables_without_rows_are_sound;
use skip_guard::{Level, SkipEntry, SkipFault, SkipRule, Skips};
use std::alloc::Global;
use table_store::Tables;

/// The most logs that may be registered.
const MAX_LOGS: u64 = 1_048_576;

// Whether so many logs are registered that no further one is taken. It looks at each of them.
fn has_all_logs(logs: &Registry) -> bool
    ensures exact { result ≡ nat_le log_limit (length logs.now) }
{
    // How many more there have to be, besides those that were seen.
    let mut wanted = MAX_LOGS;
    for entry in logs.entries() {
        let _seq = entry.head.seq;
        if wanted <= 1 {
            return true;
        }
        wanted -= 1;
    }
    false
}

fn logs_with(logs: &Registry, entry: LogEntry) -> Result<Registry, NoMemory>
    requires new { entry_of entry.head.seq logs.now ≡ None }
    ensures with { IfOk result (λ logs_then. logs_then ≡ with_log entry logs.now) }
{
    let mut logs = logs.copy()?;
    logs.insert(entry)?;
    Ok(logs)
}

/// A log is registered.
pub(crate) fn prepare_log(
    alloc: Global,
    image: &Image,
    entry: LogEntry,
) -> Result<Prepared, PubFault>
    requires sound { AreSound (image_state image.now).tables }
    requires new { entry_of entry.head.seq (image_state image.now).logs ≡ None }
    ensures prepared { PreparesWriting (AddLog entry) (image_state image.now) (log_refusal (image_state image.now)) result }
{
    if has_all_logs(&image.logs) {
        return Err(PubFault::Limit);
    }
    let Ok(batch) = log_batch(alloc, entry) else {
        return Err(PubFault::Memory);
    };
    let Ok(logs) = logs_with(&image.logs, entry) else {
        return Err(PubFault::Memory);
    };
    Ok(Prepared {
        next: Next::Logs(logs),
        batch,
    })
}

fn refused_rule(fault: SkipFault) -> PubFault
    ensures exact { result ≡ skip_fault_of fault }
{
    match fault {
        SkipFault::Twice => PubFault::Twice,
        SkipFault::Limit => PubFault::Limit,
        SkipFault::Memory => PubFault::Memory,
    }
}

// The rules with one more, or the first reason against it.
fn skips_with(skips: &Skips, entry: SkipEntry) -> Result<Skips, PubFault>
    ensures with { IfOk result (λ skips_then. skips_then ≡ skips.now ++ skip_of entry ∷ []) }
    ensures refused { Refuses (skip_reason skips.now (rule_of entry.rule)) result }
    ensures own { OnErr result (ending_of result ≡ Refused) }
{
    let Ok(mut skips) = skips.copy() else {
        return Err(PubFault::Memory);
    };
    match skips.add(entry) {
        Ok(()) => Ok(skips),
        Err((fault, _)) => Err(refused_rule(fault)),
    }
}

/// A skip rule is added, which counts from the next commit on.
pub(crate) fn prepare_skip(
    alloc: Global,
    image: &Image,
    rule: SkipRule,
) -> Result<Prepared, PubFault>
    requires sound { AreSound (image_state image.now).tables }
    ensures prepared { PreparesWriting (AddSkip (rule_of rule)) (image_state image.now)
        (skip_refusal (image_state image.now) (rule_of rule)) result }
{
    let entry = SkipEntry {
        rule,
        from: image.n,
    };
    // There are at most 256, as the clause of `entries` says.
    let number = image.skips.entries().len() as u32 + 1;
    let Ok(batch) = skip_batch(alloc, number, &entry) else {
        return Err(PubFault::Memory);
    };
    let skips = skips_with(&image.skips, entry)?;
    Ok(Prepared {
        next: Next::Skips(skips),
        batch,
    })
}

/// The guard is set to this level.
pub(crate) fn prepare_level(
    alloc: Global,
    image: &Image,
    level: Level,
) -> Result<Prepared, PubFault>
    requires sound { AreSound (image_state image.now).tables }
    ensures prepared { PreparesWriting (SetLevel level) (image_state image.now) None result }
{
    let identity = Identity {
        dbid: image.dbid,
        first: image.first,
        base: image.base,
        level,
    };
    match identity_batch(alloc, identity) {
        Ok(batch) => Ok(Prepared {
            next: Next::Level(level),
            batch,
        }),
        Err(NoMemory) => Err(PubFault::Memory),
    }
}

/// A mark is kept, unless it was taken at a later count.
pub(crate) fn prepare_mark(alloc: Global, image: &Image, mark: Mark) -> Result<Prepared, PubFault>
    requires sound { AreSound (image_state image.now).tables }
    ensures prepared { PreparesWriting (KeepMark mark) (image_state image.now)
        (mark_refusal (image_state image.now) mark) result }
{
    if image.n < mark.n {
        return Err(PubFault::Early(image.n));
    }
    match mark_batch(alloc, mark) {
        Ok(batch) => Ok(Prepared {
            next: Next::Mark(mark),
            batch,
        }),
        Err(NoMemory) => Err(PubFault::Memory),
    }
}

// A standby of this log and these tables, to which no commit is applied. It keeps the log that it is made with.
fn first_image(
    alloc: Global,
    identity: Identity,
    entry: LogEntry,
    dict: Dict,
) -> Result<Image, NoMemory>
    requires of_log { identity ≡ first_identity entry }
    ensures state { IfOk result (λ image. image_state image ≡ created_state entry dict.tables) }
    ensures sound { IfOk result (λ image. AreSound (image_state image).tables) }
{
    let mut logs = Registry::new(alloc);
    logs.insert(entry)?;
    tables_without_rows_are_sound();
    match Tables::new(alloc, dict) {
        Ok(tables) => Ok(Image {
            dbid: identity.dbid,
            first: identity.first,
            base: identity.base,
            level: identity.level,
            logs,
            skips: Skips::new(alloc),
            tables,
            n: 0,
            scn: identity.base,
            mark: None,
        }),
        Err(_) => Err(NoMemory),
    }
}

// The SCN before the log is the base SCN. A good header's first SCN is 1 or more.
fn identity_of(entry: LogEntry) -> Identity
    ensures first { result ≡ first_identity entry }
{
    Identity {
        dbid: entry.head.dbid,
        first: entry.head.seq,
        base: entry.head.first.saturating_sub(1),
        level: Level::All,
    }
}

/// A standby is created from its first log and the tables of its dictionary.
pub(crate) fn prepare_standby(
    alloc: Global,
    entry: LogEntry,
    dict: Dict,
) -> Result<Prepared, PubFault>
    ensures prepared { Prepares (created_items entry dict.tables) None (created_state entry dict.tables) None result }
{
    let identity = identity_of(entry);
    let Ok(batch) = standby_batch(alloc, identity, entry, dict.tables()) else {
        return Err(PubFault::Memory);
    };
    match first_image(alloc, identity, entry, dict) {
        Ok(image) => Ok(Prepared {
            next: Next::Standby(image),
            batch,
        }),
        Err(NoMemory) => Err(PubFault::Memory),
    }
}
