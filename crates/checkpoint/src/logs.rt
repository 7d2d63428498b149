//! The registered logs, which area 2 has in order of their sequences.
ghost use Rattle.std.specs.Prelude.{◌≡◌, ◌≢◌, ◌≤◌, ◌<◌, ◌+◌, ◌⊎◌, IsTrue, IfOk, Ok, Err, Some, None, true, false, length};
ghost use Rattle.std.specs.List.{AllByRecursion};
ghost use Rattle.rl_ports.specs.Faults.{NoneCounted, Rose, Told};
ghost use Rattle.log_registry.specs.Registered.{IsRising, with_log, entry_of};
ghost use Rattle.standby_spec.specs.HasLayout.{IsLogOf};
ghost use Rattle.standby_spec.specs.Loading.{logs_in, log_step};
ghost use Rattle.standby_spec.specs.Writings.{log_limit};
ghost use Rattle.kept_layout.specs.Pairs.{identity_of};
ghost use Rattle.checkpoint.specs.declared.fault.LoadFault.TheVariants.{KeeperFault};
ghost use Rattle.checkpoint.specs.Areas.{is_above, Reads};
ghost use Rattle.checkpoint.specs.Read.{AreLogsTo};

use crate::area::{hold_bytes, next};
use crate::fault::LoadFault;
use kept_layout::{Identity, log_in};
use log_registry::{LogEntry, Registry};
use rl_ports::Keeper;
use rl_value::{Bytes, NoMemory};
use std::alloc::Global;

/// The most registered logs.
const MAX_LOGS: u32 = 1_048_576;

/// The logs that were read, and how many they are.
#[derive(Drop)]
struct LogsRead {
    logs: Registry,
    count: u32,
}

// Registers a log behind the others.
fn register(read: &mut LogsRead, entry: LogEntry) -> Result<bool, NoMemory>
    requires counted { read.old.count ≡ length read.old.logs }
    ensures added { result ≡ Ok true → read.new.logs ≡ with_log entry read.old.logs }
    ensures new { result ≡ Ok true → entry_of entry.head.seq read.old.logs ≡ None }
    ensures counted { result ≡ Ok true → read.new.count ≡ read.old.count + 1 }
    ensures room { result ≡ Ok true → length read.old.logs < log_limit }
    ensures rising { result ≡ Ok true → IsRising read.new.logs }
    ensures refused { result ≡ Ok false →
        ((entry_of entry.head.seq read.old.logs ≢ None) ⊎ (log_limit ≤ length read.old.logs)) }
{
    if read.count >= MAX_LOGS {
        return Ok(false);
    }
    if read.logs.has(entry.head.seq) {
        return Ok(false);
    }
    read.logs.insert(entry)?;
    read.count += 1;
    Ok(true)
}

// Takes the log of a pair, whose key lies above those of the pairs before it.
fn take_log(
    identity: Identity,
    read: &mut LogsRead,
    last: &Bytes,
    key: &Bytes,
    value: &Bytes,
) -> Result<bool, NoMemory>
    requires above { IsTrue (is_above last.now key.now) }
    requires read { AreLogsTo identity last.now read.old.count read.old.logs }
    ensures taken { result ≡ Ok true → log_step (identity_of identity) read.old.logs (key.now, value.now) ≡ Some read.new.logs }
    ensures refused { result ≡ Ok false → log_step (identity_of identity) read.old.logs (key.now, value.now) ≡ None }
    ensures read { result ≡ Ok true → AreLogsTo identity key.now read.new.count read.new.logs }
{
    hold_bytes(key);
    hold_bytes(value);
    match log_in(identity, key.bytes(), value.bytes()) {
        None => Ok(false),
        Some(entry) => register(read, entry),
    }
}

/// The logs of a standby of this identity.
pub(crate) fn read_logs<K: Keeper>(
    alloc: Global,
    keeper: &mut K,
    identity: Identity,
) -> Result<Registry, LoadFault>
    ensures read { Told (K.holds keeper.old) (λ pairs. Reads (λ logs. logs) result (logs_in (identity_of identity) pairs)) }
    // Of a keeper that tells nothing, too.
    ensures logs { IfOk result (AllByRecursion (IsLogOf identity.dbid identity.first)) }
    ensures rising { IfOk result IsRising }
    ensures few { IfOk result (λ logs. length logs ≤ log_limit) }
    ensures same { K.holds keeper.new ≡ K.holds keeper.old }
    ensures failed { result ≡ Err KeeperFault → Rose (K.faults keeper.old) (K.faults keeper.new) }
    ensures none_passed_over { result ≢ Err KeeperFault →
        NoneCounted K.counts_failures_alone (K.faults keeper.old) (K.faults keeper.new) }
    ensures count { K.faults keeper.old ≤ K.faults keeper.new }
{
    let mut read = LogsRead {
        logs: Registry::new(alloc),
        count: 0,
    };
    let mut last = Bytes::of(Vec::new(alloc));
    for _ in 0..u64::MAX {
        let found = next(keeper, 2, &last)?;
        let Some(pair) = found else {
            return Ok(read.logs);
        };
        if !take_log(identity, &mut read, &last, &pair.key, &pair.value)? {
            return Err(LoadFault::BadKeeper {
                area: 2,
                key: pair.key,
            });
        }
        last = pair.key;
    }
    // No area has so many pairs; the answer without a cause stands for it.
    Err(LoadFault::Memory)
}
