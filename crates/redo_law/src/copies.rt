//! The parts of the open transactions, copied in the order of their keys.
ghost use Rattle.std.specs.Prelude.{◌≡◌, IfOk, OnOk};
ghost use Rattle.std.specs.BTreeMap.{insert_entry};

use crate::hold::Hold;
use crate::survivors::Open;
use rl_value::{Key, NoMemory, Pos, Xid};
use std::alloc::Global;
use std::collections::BTreeMap;

fn put<K: Ord + Drop, V: Drop>(map: &mut BTreeMap<K, V>, key: K, value: V) -> Result<(), NoMemory>
    ensures { OnOk result (map.new.entries ≡ insert_entry K.cmp map.old.entries key value) }
{
    match map.insert(key, value) {
        Ok(_) => Ok(()),
        Err(_) => Err(NoMemory),
    }
}

/// The same START for each id.
pub fn copied_xids(alloc: Global, xids: &BTreeMap<Xid, Pos>) -> Result<BTreeMap<Xid, Pos>, NoMemory>
    ensures { IfOk result (λ copies. copies.entries ≡ xids.now.entries) }
{
    let mut copies = BTreeMap::new(alloc);
    for (xid, start) in xids {
        put(&mut copies, *xid, *start)?;
    }
    Ok(copies)
}

/// The same transactions.
pub fn copied_txns(
    alloc: Global,
    txns: &BTreeMap<Pos, Open>,
) -> Result<BTreeMap<Pos, Open>, NoMemory>
    ensures { IfOk result (λ copies. copies.entries ≡ txns.now.entries) }
{
    let mut copies = BTreeMap::new(alloc);
    for (start, txn) in txns {
        let txn = txn.copy()?;
        put(&mut copies, *start, txn)?;
    }
    Ok(copies)
}

/// The same holders.
pub fn copied_locks(
    alloc: Global,
    locks: &BTreeMap<Key, Hold>,
) -> Result<BTreeMap<Key, Hold>, NoMemory>
    ensures { IfOk result (λ copies. copies.entries ≡ locks.now.entries) }
{
    let mut copies = BTreeMap::new(alloc);
    for (key, hold) in locks {
        let key = key.copy()?;
        put(&mut copies, key, *hold)?;
    }
    Ok(copies)
}
