//! What is applied, which area 6 has under one key, and the mark, which area 7 has under one.
//!
//! Where the count of applied commits is not there, that is told before any other key of its area.
ghost use Rattle.std.specs.Prelude.{◌≡◌, ◌≢◌, ◌≤◌, ◌<◌, ◌^◌, IfOk, IfSome, IsTrue, Err};
ghost use Rattle.rl_ports.specs.Faults.{NoneCounted, Rose, Told};
ghost use Rattle.standby_spec.specs.HasLayout.{IsMark};
ghost use Rattle.standby_spec.specs.Loading.{applied_in, is_mark_in, marks_in};
ghost use Rattle.checkpoint.specs.declared.fault.LoadFault.TheVariants.{KeeperFault};
ghost use Rattle.checkpoint.specs.Areas.{Reads};

use crate::area::{hold_bytes, holds_key, next};
use crate::fault::LoadFault;
use kept_layout::{applied_in, mark_in};
use log_registry::Registry;
use rl_ports::Keeper;
use rl_value::{Bytes, Scn};
use standby_spec::Mark;
use std::alloc::Global;

/// How many commits are applied, and the SCN of the last of them.
pub(crate) fn read_applied<K: Keeper>(
    alloc: Global,
    keeper: &mut K,
) -> Result<(u64, Scn), LoadFault>
    ensures read { Told (K.holds keeper.old) (λ pairs. Reads (λ applied. applied) result (applied_in pairs)) }
    // Of a keeper that tells nothing, too.
    ensures few { IfOk result (λ applied. applied.0 < 2 ^ 62) }
    ensures same { K.holds keeper.new ≡ K.holds keeper.old }
    ensures failed { result ≡ Err KeeperFault → Rose (K.faults keeper.old) (K.faults keeper.new) }
    ensures none_passed_over { result ≢ Err KeeperFault →
        NoneCounted K.counts_failures_alone (K.faults keeper.old) (K.faults keeper.new) }
    ensures count { K.faults keeper.old ≤ K.faults keeper.new }
{
    let start = Bytes::of(Vec::new(alloc));
    let found = next(keeper, 6, &start)?;
    let Some(pair) = found else {
        return Err(LoadFault::BadKeeper {
            area: 6,
            key: start,
        });
    };
    let Some(applied) = applied_in(pair.key.bytes(), pair.value.bytes()) else {
        if holds_key(alloc, keeper, 6, b"A")? {
            return Err(LoadFault::BadKeeper {
                area: 6,
                key: pair.key,
            });
        }
        return Err(LoadFault::BadKeeper {
            area: 6,
            key: start,
        });
    };
    let behind = next(keeper, 6, &pair.key)?;
    match behind {
        None => Ok(applied),
        Some(other) => Err(LoadFault::BadKeeper {
            area: 6,
            key: other.key,
        }),
    }
}

/// The mark, where one is kept, of these registered logs and at this count.
pub(crate) fn read_mark<K: Keeper>(
    alloc: Global,
    keeper: &mut K,
    logs: &Registry,
    n: u64,
) -> Result<Option<Mark>, LoadFault>
    ensures read { Told (K.holds keeper.old) (λ pairs. Reads (λ mark. mark) result (marks_in logs.now n pairs)) }
    // Of a keeper that tells nothing, too.
    ensures mark { IfOk result (λ mark. IfSome mark IsMark) }
    ensures placed { IfOk result (λ mark. IfSome mark (λ k. IsTrue (is_mark_in logs.now n k))) }
    ensures same { K.holds keeper.new ≡ K.holds keeper.old }
    ensures failed { result ≡ Err KeeperFault → Rose (K.faults keeper.old) (K.faults keeper.new) }
    ensures none_passed_over { result ≢ Err KeeperFault →
        NoneCounted K.counts_failures_alone (K.faults keeper.old) (K.faults keeper.new) }
    ensures count { K.faults keeper.old ≤ K.faults keeper.new }
{
    let start = Bytes::of(Vec::new(alloc));
    let found = next(keeper, 7, &start)?;
    let Some(pair) = found else {
        return Ok(None);
    };
    hold_bytes(&pair.value);
    let Some(mark) = mark_in(pair.key.bytes(), pair.value.bytes(), logs, n) else {
        return Err(LoadFault::BadKeeper {
            area: 7,
            key: pair.key,
        });
    };
    let behind = next(keeper, 7, &pair.key)?;
    match behind {
        None => Ok(Some(mark)),
        Some(other) => Err(LoadFault::BadKeeper {
            area: 7,
            key: other.key,
        }),
    }
}
