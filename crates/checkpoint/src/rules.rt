//! The skip rules, which area 4 has in order of their numbers.
ghost use Rattle.std.specs.Prelude.{◌≡◌, ◌≢◌, ◌≤◌, ◌+◌, ◌++◌, ◌∷◌, [], length, IsTrue, IfOk, Ok, Err, Some, None, true, false};
ghost use Rattle.std.specs.List.{AllByRecursion};
ghost use Rattle.rl_ports.specs.Faults.{NoneCounted, Rose, Told};
ghost use Rattle.skip_guard.specs.Rules.{skip_of, rule_of, skip_fault};
ghost use Rattle.skip_guard.specs.Rules.{are_skips};
ghost use Rattle.standby_spec.specs.HasLayout.{IsSkip};
ghost use Rattle.standby_spec.specs.Loading.{skips_in, skip_step};
ghost use Rattle.checkpoint.specs.declared.fault.LoadFault.TheVariants.{KeeperFault};
ghost use Rattle.checkpoint.specs.Areas.{Reads};

use crate::area::{hold_bytes, next};
use crate::fault::LoadFault;
use kept_layout::skip_in;
use rl_ports::Keeper;
use rl_value::{Bytes, NoMemory};
use skip_guard::{SkipEntry, SkipFault, Skips};
use std::alloc::Global;

fn refused(fault: SkipFault) -> Result<bool, NoMemory>
    ensures never { result ≢ Ok true }
    ensures cause { result ≡ Ok false → fault ≢ SkipFault.Memory }
{
    match fault {
        SkipFault::Twice | SkipFault::Limit => Ok(false),
        SkipFault::Memory => Err(NoMemory),
    }
}

// The rule comes behind the others, if it is new and not one too many.
fn add_rule(skips: &mut Skips, entry: SkipEntry) -> Result<bool, NoMemory>
    ensures taken { result ≡ Ok true → skip_fault skips.old (rule_of entry.rule) ≡ None }
    ensures added { result ≡ Ok true → skips.new ≡ skips.old ++ skip_of entry ∷ [] }
    ensures refused { result ≡ Ok false → skip_fault skips.old (rule_of entry.rule) ≢ None }
{
    match skips.add(entry) {
        Ok(()) => Ok(true),
        Err((fault, _entry)) => refused(fault),
    }
}

// The number of the next rule.
fn next_number(skips: &Skips) -> u32
    ensures number { result ≡ length skips.now + 1 }
{
    skips.entries().len() as u32 + 1
}

// Takes the rule of a pair.
fn take_rule(alloc: Global, skips: &mut Skips, key: &Bytes, value: &Bytes) -> Result<bool, NoMemory>
    requires read { AllByRecursion IsSkip skips.old }
    ensures taken { result ≡ Ok true → skip_step skips.old (key.now, value.now) ≡ Some skips.new }
    ensures refused { result ≡ Ok false → skip_step skips.old (key.now, value.now) ≡ None }
    ensures read { result ≡ Ok true → AllByRecursion IsSkip skips.new }
{
    hold_bytes(value);
    let number = next_number(skips);
    let found = skip_in(alloc, number, key.bytes(), value.bytes())?;
    match found {
        None => Ok(false),
        Some(entry) => add_rule(skips, entry),
    }
}

/// The skip rules.
pub(crate) fn read_rules<K: Keeper>(alloc: Global, keeper: &mut K) -> Result<Skips, LoadFault>
    ensures read { Told (K.holds keeper.old) (λ pairs. Reads (λ skips. skips) result (skips_in pairs)) }
    // Of a keeper that tells nothing, too.
    ensures rules { IfOk result (AllByRecursion IsSkip) }
    ensures same { K.holds keeper.new ≡ K.holds keeper.old }
    ensures failed { result ≡ Err KeeperFault → Rose (K.faults keeper.old) (K.faults keeper.new) }
    ensures none_passed_over { result ≢ Err KeeperFault →
        NoneCounted K.counts_failures_alone (K.faults keeper.old) (K.faults keeper.new) }
    ensures count { K.faults keeper.old ≤ K.faults keeper.new }
{
    let mut skips = Skips::new(alloc);
    let mut last = Bytes::of(Vec::new(alloc));
    for _ in 0..u64::MAX {
        let found = next(keeper, 4, &last)?;
        let Some(pair) = found else {
            return Ok(skips);
        };
        if !take_rule(alloc, &mut skips, &pair.key, &pair.value)? {
            return Err(LoadFault::BadKeeper {
                area: 4,
                key: pair.key,
            });
        }
        last = pair.key;
    }
    // No area has so many pairs; the answer without a cause stands for it.
    Err(LoadFault::Memory)
}
