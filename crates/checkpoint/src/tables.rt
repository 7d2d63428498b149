//! The tables of the dictionary, which area 3 has in order of their ids.
ghost use Rattle.std.specs.Prelude.{◌≡◌, ◌≢◌, ◌≤◌, IsTrue, IfOk, Ok, Err, Some, None, [], true, false};
ghost use Rattle.std.specs.List.{AllByRecursion};
ghost use Rattle.rl_ports.specs.Faults.{NoneCounted, Rose, Told};
ghost use Rattle.redo_vec.specs.Ranges.{IsTable};
ghost use Rattle.redo_vec.specs.declared.vector.Vector.TheVariants.{Table};
ghost use Rattle.redo_spec.specs.Dictionary.{dictionary_after, table_fault};
ghost use Rattle.standby_spec.specs.HasLayout.{AreAcceptedBehind};
ghost use Rattle.standby_spec.specs.Loading.{no_fault, tables_in, table_step};
ghost use Rattle.checkpoint.specs.declared.fault.LoadFault.TheVariants.{KeeperFault};
ghost use Rattle.checkpoint.specs.Areas.{is_above, Reads};
ghost use Rattle.checkpoint.specs.Read.{AreTablesTo};

use crate::area::{hold_bytes, next};
use crate::fault::LoadFault;
use kept_layout::table_in;
use redo_dict::{Dict, DictFault};
use redo_vec::TableRow;
use rl_ports::Keeper;
use rl_value::{Bytes, NoMemory};
use std::alloc::Global;

fn refused(fault: DictFault) -> Result<bool, NoMemory>
    ensures never { result ≢ Ok true }
    ensures cause { result ≡ Ok false → fault ≢ DictFault.Memory }
{
    match fault {
        DictFault::Twice | DictFault::Names | DictFault::Keys | DictFault::Limit => Ok(false),
        DictFault::Memory => Err(NoMemory),
    }
}

// The table comes to the others, if the dictionary takes it.
fn add_table(dict: &mut Dict, table: TableRow) -> Result<bool, NoMemory>
    ensures taken { result ≡ Ok true → table_fault dict.old.tables table ≡ None }
    ensures added { result ≡ Ok true → dict.new ≡ dictionary_after dict.old (Table table) }
    ensures refused { result ≡ Ok false → no_fault (table_fault dict.old.tables table) ≡ false }
{
    match dict.add(table) {
        Ok(()) => Ok(true),
        Err((fault, _table)) => refused(fault),
    }
}

// Takes the table of a pair, whose key lies above those of the pairs before it.
fn take_table(
    alloc: Global,
    dict: &mut Dict,
    last: &Bytes,
    key: &Bytes,
    value: &Bytes,
) -> Result<bool, NoMemory>
    requires above { IsTrue (is_above last.now key.now) }
    requires read { AreTablesTo last.now dict.old.tables }
    ensures taken { result ≡ Ok true → table_step dict.old.tables (key.now, value.now) ≡ Some dict.new.tables }
    ensures refused { result ≡ Ok false → table_step dict.old.tables (key.now, value.now) ≡ None }
    ensures read { result ≡ Ok true → AreTablesTo key.now dict.new.tables }
{
    hold_bytes(key);
    hold_bytes(value);
    let found = table_in(alloc, key.bytes(), value.bytes())?;
    match found {
        None => Ok(false),
        Some(table) => add_table(dict, table),
    }
}

/// The dictionary of the tables. It is whole.
pub(crate) fn read_tables<K: Keeper>(alloc: Global, keeper: &mut K) -> Result<Dict, LoadFault>
    ensures read { Told (K.holds keeper.old) (λ pairs. Reads (λ dict. dict.tables) result (tables_in pairs)) }
    // Of a keeper that tells nothing, too.
    ensures tables { IfOk result (λ dict. AllByRecursion IsTable dict.tables) }
    ensures accepted { IfOk result (λ dict. AreAcceptedBehind [] dict.tables) }
    ensures whole { IfOk result (λ dict. dict.finished ≡ true) }
    ensures same { K.holds keeper.new ≡ K.holds keeper.old }
    ensures failed { result ≡ Err KeeperFault → Rose (K.faults keeper.old) (K.faults keeper.new) }
    ensures none_passed_over { result ≢ Err KeeperFault →
        NoneCounted K.counts_failures_alone (K.faults keeper.old) (K.faults keeper.new) }
    ensures count { K.faults keeper.old ≤ K.faults keeper.new }
{
    let mut dict = Dict::new(alloc);
    let mut last = Bytes::of(Vec::new(alloc));
    for _ in 0..u64::MAX {
        let found = next(keeper, 3, &last)?;
        let Some(pair) = found else {
            dict.finish();
            return Ok(dict);
        };
        if !take_table(alloc, &mut dict, &last, &pair.key, &pair.value)? {
            return Err(LoadFault::BadKeeper {
                area: 3,
                key: pair.key,
            });
        }
        last = pair.key;
    }
    // No area has so many pairs; the answer without a cause stands for it.
    Err(LoadFault::Memory)
}
