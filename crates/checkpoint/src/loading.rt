//! Loads a store: area by area, each under what those before it gave.
//!
//! The first key that is refused is told, and nothing of an area behind it is looked at. What is kept of the pairs is what the
//! image has of them; each pair is asked for once, but for those that are looked for by their key.
ghost use Rattle.std.specs.Prelude.{◌≡◌, ◌≢◌, ◌≤◌, IfOk, IsSome, Err, true, length};
ghost use Rattle.std.specs.List.{AllByRecursion};
ghost use Rattle.rl_ports.specs.Faults.{NoneCounted, Rose, Told};
ghost use Rattle.log_registry.specs.Registered.{IsRising, entry_of};
ghost use Rattle.standby_spec.specs.HasLayout.{HasLayout, IsLogOf};
ghost use Rattle.standby_spec.specs.Loading.{logs_in, state_in, loaded};
ghost use Rattle.standby_spec.specs.Loading as loading;
ghost use Rattle.standby_spec.specs.Writings.{log_limit};
ghost use Rattle.kept_layout.specs.Pairs.{identity_of};
ghost use Rattle.checkpoint.specs.declared.fault.LoadFault.TheVariants.{KeeperFault};
ghost use Rattle.checkpoint.specs.Areas.{Reads};
ghost use Rattle.checkpoint.specs.Beginning.{HasIdentity};
ghost use Rattle.checkpoint.specs.Images.{image_state, OnImage, OnFresh, OnBadKey, Tells};
ghost use Rattle.checkpoint.specs.Read.{contents_in, AreContents};

use crate::applied::{read_applied, read_mark};
use crate::beginning::{read_identity, read_nothing};
use crate::fault::LoadFault;
use crate::image::{Image, Loaded};
use crate::logs::read_logs;
use crate::rows::read_rows;
use crate::rules::read_rules;
use crate::tables::read_tables;
use kept_layout::Identity;
use log_registry::Registry;
use rl_ports::Keeper;
use rl_value::Bytes;
use skip_guard::Skips;
use std::alloc::Global;
use table_store::Tables;

// The logs of a standby, the first one among them.
fn read_first_logs<K: Keeper>(
    alloc: Global,
    keeper: &mut K,
    identity: Identity,
) -> Result<Registry, LoadFault>
    ensures read { Told (K.holds keeper.old) (λ pairs. HasIdentity pairs identity →
        Reads (λ logs. logs) result (logs_in (identity_of identity) pairs)) }
    // Of a keeper that tells nothing, too.
    ensures logs { IfOk result (AllByRecursion (IsLogOf identity.dbid identity.first)) }
    ensures rising { IfOk result IsRising }
    ensures few { IfOk result (λ logs. length logs ≤ log_limit) }
    ensures beginning { IfOk result (λ logs. IsSome (entry_of identity.first logs)) }
    ensures same { K.holds keeper.new ≡ K.holds keeper.old }
    ensures failed { result ≡ Err KeeperFault → Rose (K.faults keeper.old) (K.faults keeper.new) }
    ensures none_passed_over { result ≢ Err KeeperFault →
        NoneCounted K.counts_failures_alone (K.faults keeper.old) (K.faults keeper.new) }
    ensures count { K.faults keeper.old ≤ K.faults keeper.new }
{
    let logs = read_logs(alloc, keeper, identity)?;
    if logs.has(identity.first) {
        return Ok(logs);
    }
    // It was there when the standby's pair was judged: no lawful keeper loses it since.
    let Ok(key) = Vec::from_slice(alloc, b"S") else {
        return Err(LoadFault::Memory);
    };
    Err(LoadFault::BadKeeper {
        area: 1,
        key: Bytes::of(key),
    })
}

// The rules, and the tables with their rows.
fn read_contents<K: Keeper>(alloc: Global, keeper: &mut K) -> Result<(Skips, Tables), LoadFault>
    ensures read { Told (K.holds keeper.old) (λ pairs. Reads (λ x. (x.0, x.1.tables)) result (contents_in pairs)) }
    // Of a keeper that tells nothing, too.
    ensures contents { IfOk result (λ x. AreContents x.0 x.1) }
    ensures same { K.holds keeper.new ≡ K.holds keeper.old }
    ensures failed { result ≡ Err KeeperFault → Rose (K.faults keeper.old) (K.faults keeper.new) }
    ensures none_passed_over { result ≢ Err KeeperFault →
        NoneCounted K.counts_failures_alone (K.faults keeper.old) (K.faults keeper.new) }
    ensures count { K.faults keeper.old ≤ K.faults keeper.new }
{
    let dict = read_tables(alloc, keeper)?;
    // Its ids rise.
    let _tables = dict.tables();
    let skips = read_rules(alloc, keeper)?;
    // No two rules are equal.
    let _rules = skips.entries();
    let tables = read_rows(alloc, keeper, dict)?;
    Ok((skips, tables))
}

// The state of a standby whose identity was read.
fn read_state<K: Keeper>(
    alloc: Global,
    keeper: &mut K,
    identity: Identity,
) -> Result<Image, LoadFault>
    ensures read { Told (K.holds keeper.old) (λ pairs. HasIdentity pairs identity → Reads image_state result (state_in pairs)) }
    ensures layout { IfOk result (λ image. HasLayout (image_state image)) }
    ensures whole { IfOk result (λ image. image.tables.dictionary.finished ≡ true) }
    ensures same { K.holds keeper.new ≡ K.holds keeper.old }
    ensures failed { result ≡ Err KeeperFault → Rose (K.faults keeper.old) (K.faults keeper.new) }
    ensures none_passed_over { result ≢ Err KeeperFault →
        NoneCounted K.counts_failures_alone (K.faults keeper.old) (K.faults keeper.new) }
    ensures count { K.faults keeper.old ≤ K.faults keeper.new }
{
    let logs = read_first_logs(alloc, keeper, identity)?;
    let (skips, tables) = read_contents(alloc, keeper)?;
    let (n, scn) = read_applied(alloc, keeper)?;
    let mark = read_mark(alloc, keeper, &logs, n)?;
    Ok(Image {
        dbid: identity.dbid,
        first: identity.first,
        base: identity.base,
        level: identity.level,
        logs,
        skips,
        tables,
        n,
        scn,
        mark,
    })
}

fn load_all<K: Keeper>(alloc: Global, keeper: &mut K) -> Result<Loaded, LoadFault>
    ensures told { Told (K.holds keeper.old) (λ pairs. Tells result (loaded pairs)) }
    ensures layout { OnImage result (λ image. HasLayout (image_state image)) }
    ensures whole { OnImage result (λ image. image.tables.dictionary.finished ≡ true) }
    ensures same { K.holds keeper.new ≡ K.holds keeper.old }
    ensures failed { result ≡ Err KeeperFault → Rose (K.faults keeper.old) (K.faults keeper.new) }
    ensures none_passed_over { result ≢ Err KeeperFault →
        NoneCounted K.counts_failures_alone (K.faults keeper.old) (K.faults keeper.new) }
    ensures count { K.faults keeper.old ≤ K.faults keeper.new }
{
    let found = read_identity(alloc, keeper)?;
    match found {
        None => {
            read_nothing(alloc, keeper)?;
            Ok(Loaded::Fresh)
        }
        Some(identity) => {
            let image = read_state(alloc, keeper, identity)?;
            Ok(Loaded::Image(image))
        }
    }
}

/// Loads the store of a keeper: the state that its pairs are the layout of, that nothing is kept, or the first key that is not in
/// the layout. The store is only read. It takes a look-up for each pair, and holds the state alone.
pub fn load<K: Keeper>(alloc: Global, keeper: &mut K) -> Result<Loaded, LoadFault>
    ensures image { Told (K.holds keeper.old) (λ pairs. OnImage result (λ image. loaded pairs ≡ loading.Image
        (image_state image))) }
    ensures fresh { Told (K.holds keeper.old) (λ pairs. OnFresh result (loaded pairs ≡ loading.Fresh)) }
    ensures bad { Told (K.holds keeper.old) (λ pairs. OnBadKey result (λ area key. loaded pairs ≡ loading.Bad area key)) }
    // Of a keeper that tells nothing, too: the state has a layout, and its dictionary is whole.
    ensures layout { OnImage result (λ image. HasLayout (image_state image)) }
    ensures dictionary { OnImage result (λ image. image.tables.dictionary.finished ≡ true) }
    ensures same { K.holds keeper.new ≡ K.holds keeper.old }
    ensures failed { result ≡ Err KeeperFault → Rose (K.faults keeper.old) (K.faults keeper.new) }
    ensures none_passed_over { result ≢ Err KeeperFault →
        NoneCounted K.counts_failures_alone (K.faults keeper.old) (K.faults keeper.new) }
    ensures count { K.faults keeper.old ≤ K.faults keeper.new }
{
    load_all(alloc, keeper)
}
