//! The pairs of an area, as they come from the keeper.
//!
//! Each pair is asked for by the key of the one before it, the first by the key of no bytes. A lawful keeper gives the least key
//! above it. A key that does not lie above it is told as a bad one, of a keeper that tells nothing too; so what is read of an
//! area always rises.
ghost use Rattle.std.specs.Prelude.{◌≡◌, ◌≢◌, ◌≤◌, IfOk, Err};
ghost use Rattle.rl_value.specs.Order.{same_bytes};
ghost use Rattle.redo_vec.specs.Ranges.{AreBytes};
ghost use Rattle.rl_ports.specs.Faults.{NoneCounted, Rose, Told};
ghost use Rattle.standby_spec.specs.Loading.{of_area, has_key};
ghost use Rattle.checkpoint.specs.declared.fault.LoadFault.TheVariants.{KeeperFault};
ghost use Rattle.checkpoint.specs.Areas.{is_above, GivesNext, LiesAbove, Checks};
ghost use Rattle.checkpoint.specs.Images.{OnBadKey};

use crate::fault::LoadFault;
use rl_ports::{Keeper, Pair, PortFault};
use rl_value::Bytes;
use std::alloc::Global;
use std::cmp::Ordering;

// What a slice holds are bytes.
fn hold_all(_bytes: &[u8])
    ensures { AreBytes _bytes.now }
{}

// The proof that what is read of a key or a value fits its fields begins with this.
pub(crate) fn hold_bytes(bytes: &Bytes)
    ensures { AreBytes bytes.now }
{
    hold_all(bytes.bytes());
}

fn lies_above(last: &Bytes, key: &Bytes) -> bool
    ensures { result ≡ is_above last.now key.now }
{
    last.cmp(key) == Ordering::Less
}

// The pair that was given, if its key lies above the last one.
fn checked(area: u8, last: &Bytes, found: Option<Pair>) -> Result<Option<Pair>, LoadFault>
    ensures { Checks last.now found result }
{
    match found {
        None => Ok(None),
        Some(pair) => {
            if lies_above(last, &pair.key) {
                return Ok(Some(pair));
            }
            Err(LoadFault::BadKeeper {
                area,
                key: pair.key,
            })
        }
    }
}

/// The next pair of the area above this key.
pub(crate) fn next<K: Keeper>(
    keeper: &mut K,
    area: u8,
    last: &Bytes,
) -> Result<Option<Pair>, LoadFault>
    ensures next { Told (K.holds keeper.old) (λ pairs. GivesNext (of_area area pairs) last.now result) }
    ensures above { IfOk result (LiesAbove last.now) }
    ensures same { K.holds keeper.new ≡ K.holds keeper.old }
    ensures failed { result ≡ Err KeeperFault → Rose (K.faults keeper.old) (K.faults keeper.new) }
    ensures none_passed_over { result ≢ Err KeeperFault →
        NoneCounted K.counts_failures_alone (K.faults keeper.old) (K.faults keeper.new) }
    ensures count { K.faults keeper.old ≤ K.faults keeper.new }
{
    match keeper.after(area, last.bytes()) {
        Ok(found) => checked(area, last, found),
        Err(PortFault::Failed) => Err(LoadFault::KeeperFault),
        Err(PortFault::Memory) => Err(LoadFault::Memory),
    }
}

fn same_key(key: &Bytes, other: &[u8]) -> bool
    ensures { result ≡ same_bytes key.now other.now }
{
    key.bytes() == other
}

/// Whether a pair of the area has this key.
pub(crate) fn holds_key<K: Keeper>(
    alloc: Global,
    keeper: &mut K,
    area: u8,
    key: &[u8],
) -> Result<bool, LoadFault>
    ensures told { Told (K.holds keeper.old) (λ pairs. IfOk result (λ there. there ≡ has_key key.now (of_area area pairs))) }
    ensures lawful { Told (K.holds keeper.old) (λ pairs. OnBadKey result (λ area key. ⊥)) }
    ensures same { K.holds keeper.new ≡ K.holds keeper.old }
    ensures failed { result ≡ Err KeeperFault → Rose (K.faults keeper.old) (K.faults keeper.new) }
    ensures none_passed_over { result ≢ Err KeeperFault →
        NoneCounted K.counts_failures_alone (K.faults keeper.old) (K.faults keeper.new) }
    ensures count { K.faults keeper.old ≤ K.faults keeper.new }
{
    let mut last = Bytes::of(Vec::new(alloc));
    for _ in 0..u64::MAX {
        let found = next(keeper, area, &last)?;
        let Some(pair) = found else {
            return Ok(false);
        };
        if same_key(&pair.key, key) {
            return Ok(true);
        }
        last = pair.key;
    }
    // No area has so many pairs; the answer without a cause stands for it.
    Err(LoadFault::Memory)
}
