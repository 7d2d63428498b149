//! Whether a standby is kept: the first pair of the store, and the pair of the standby itself in area 1.
//!
//! The standby's pair is judged by whether there is a pair of its first log. Where it is not there and any other pair of the
//! layout is, the very first pair is the bad one, whatever it says.
ghost use Rattle.std.specs.Prelude.{◌≡◌, ◌≢◌, ◌≤◌, [], Err};
ghost use Rattle.rl_ports.specs.Faults.{NoneCounted, Rose, Told};
ghost use Rattle.standby_spec.specs.Loading.{of_area};
ghost use Rattle.checkpoint.specs.declared.fault.LoadFault.TheVariants.{KeeperFault};
ghost use Rattle.checkpoint.specs.Beginning.{IdentityTold, FirstTold, NothingTold};

use crate::area::{holds_key, next};
use crate::fault::LoadFault;
use kept_layout::{Identity, identity_in};
use rl_ports::{Keeper, Pair};
use rl_value::Bytes;
use std::alloc::Global;

/// The identity of the standby that is kept, or None where area 1 has no pair.
pub(crate) fn read_identity<K: Keeper>(
    alloc: Global,
    keeper: &mut K,
) -> Result<Option<Identity>, LoadFault>
    ensures told { Told (K.holds keeper.old) (λ pairs. IdentityTold pairs result) }
    ensures same { K.holds keeper.new ≡ K.holds keeper.old }
    ensures failed { result ≡ Err KeeperFault → Rose (K.faults keeper.old) (K.faults keeper.new) }
    ensures none_passed_over { result ≢ Err KeeperFault →
        NoneCounted K.counts_failures_alone (K.faults keeper.old) (K.faults keeper.new) }
    ensures count { K.faults keeper.old ≤ K.faults keeper.new }
{
    let start = Bytes::of(Vec::new(alloc));
    let found = next(keeper, 1, &start)?;
    match found {
        None => Ok(None),
        Some(pair) => Ok(Some(identity_of_pair(alloc, keeper, pair)?)),
    }
}

// The identity that the first pair of area 1 says, if no other pair is behind it.
fn identity_of_pair<K: Keeper>(
    alloc: Global,
    keeper: &mut K,
    pair: Pair,
) -> Result<Identity, LoadFault>
    ensures told { Told (K.holds keeper.old) (λ pairs. FirstTold pairs pair result) }
    ensures same { K.holds keeper.new ≡ K.holds keeper.old }
    ensures failed { result ≡ Err KeeperFault → Rose (K.faults keeper.old) (K.faults keeper.new) }
    ensures none_passed_over { result ≢ Err KeeperFault →
        NoneCounted K.counts_failures_alone (K.faults keeper.old) (K.faults keeper.new) }
    ensures count { K.faults keeper.old ≤ K.faults keeper.new }
{
    let Some(identity) = identity_in(pair.key.bytes(), pair.value.bytes()) else {
        return Err(LoadFault::BadKeeper {
            area: 1,
            key: pair.key,
        });
    };
    if !holds_key(alloc, keeper, 2, &identity.first.to_be_bytes())? {
        return Err(LoadFault::BadKeeper {
            area: 1,
            key: pair.key,
        });
    }
    let behind = next(keeper, 1, &pair.key)?;
    match behind {
        None => Ok(identity),
        Some(other) => Err(LoadFault::BadKeeper {
            area: 1,
            key: other.key,
        }),
    }
}

/// Where area 1 has no pair: nothing is kept, or the first pair of the other areas is bad.
pub(crate) fn read_nothing<K: Keeper>(alloc: Global, keeper: &mut K) -> Result<(), LoadFault>
    ensures told { Told (K.holds keeper.old) (λ pairs. of_area 1 pairs ≡ [] → NothingTold pairs result) }
    ensures same { K.holds keeper.new ≡ K.holds keeper.old }
    ensures failed { result ≡ Err KeeperFault → Rose (K.faults keeper.old) (K.faults keeper.new) }
    ensures none_passed_over { result ≢ Err KeeperFault →
        NoneCounted K.counts_failures_alone (K.faults keeper.old) (K.faults keeper.new) }
    ensures count { K.faults keeper.old ≤ K.faults keeper.new }
{
    let start = Bytes::of(Vec::new(alloc));
    for area in 2..8 {
        let found = next(keeper, area, &start)?;
        if let Some(pair) = found {
            return Err(LoadFault::BadKeeper {
                area,
                key: pair.key,
            });
        }
    }
    Ok(())
}
