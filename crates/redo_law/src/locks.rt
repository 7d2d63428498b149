//! The table of locks: who holds a key, and with which of its surviving changes it took it.
//!
//! A key is held from the first surviving change of its transaction on that touches it, until that change is undone or
//! the transaction ends. So taking a change back frees just the keys that it took, and nothing is counted.
ghost use Rattle.std.specs.Prelude.{◌≡◌, ◌∷◌, [], OnOk};
ghost use Rattle.std.specs.BTreeMap as tree;
ghost use Rattle.std.specs.Option.{option_map, option_copied};
ghost use Rattle.rl_value.specs.Order.{key_cmp};
ghost use Rattle.redo_spec.specs.History.{same_xid};
ghost use Rattle.redo_spec.specs.Locks.{least, lesser};
ghost use Rattle.redo_law.specs.Held.{blocked_keys, hold_after_take, hold_after_free, hold_after_undo, hold_after_end, is_hold};
ghost use Rattle.redo_law.specs.Shown.{shown_pair};

use crate::hold::Hold;
use crate::survivors::TouchedKeys;
use rl_value::{Key, NoMemory, Xid};
use std::collections::BTreeMap;

/// The two ids are equal.
pub fn is_same(x: Xid, y: Xid) -> bool
    ensures { result ≡ same_xid x y }
{
    x.usn == y.usn && x.slot == y.slot && x.sqn == y.sqn
}

fn take_key(locks: &mut BTreeMap<Key, Hold>, key: &Key, hold: Hold) -> Result<(), NoMemory>
    ensures { OnOk result ((q : Key) → tree.get key_cmp locks.new q ≡
        hold_after_take (tree.get key_cmp locks.old) (key.now ∷ []) hold q) }
{
    if locks.contains_key(key) {
        return Ok(());
    }
    let key = key.copy()?;
    if locks.insert(key, hold).is_err() {
        return Err(NoMemory);
    }
    Ok(())
}

/// Takes the keys that are free.
pub fn take_keys(locks: &mut BTreeMap<Key, Hold>, keys: &[Key], hold: Hold) -> Result<(), NoMemory>
    ensures { OnOk result ((q : Key) → tree.get key_cmp locks.new q ≡
        hold_after_take (tree.get key_cmp locks.old) keys.now hold q) }
{
    let mut rest = keys;
    while let [first, others @ ..] = rest {
        take_key(locks, first, hold)?;
        rest = others;
    }
    Ok(())
}

fn is_from(hold: Option<&Hold>, from: Hold) -> bool
    ensures { result ≡ is_hold from.holder from.change (option_copied hold.entry) }
{
    match hold {
        None => false,
        Some(hold) => is_same(hold.holder, from.holder) && hold.change == from.change,
    }
}

fn free_key_of(locks: &mut BTreeMap<Key, Hold>, key: &Key, from: Hold)
    ensures { (q : Key) → tree.get key_cmp locks.new q ≡
        hold_after_undo (tree.get key_cmp locks.old) (key.now ∷ []) from.holder from.change q }
{
    if is_from(locks.get(key), from) {
        let _ = locks.remove(key);
    }
}

/// Frees the keys that were taken so.
pub fn free_keys_of(locks: &mut BTreeMap<Key, Hold>, keys: &[Key], from: Hold)
    ensures { (q : Key) → tree.get key_cmp locks.new q ≡
        hold_after_undo (tree.get key_cmp locks.old) keys.now from.holder from.change q }
{
    let mut rest = keys;
    while let [first, others @ ..] = rest {
        free_key_of(locks, first, from);
        rest = others;
    }
}

fn free_key(locks: &mut BTreeMap<Key, Hold>, key: &Key)
    ensures { (q : Key) → tree.get key_cmp locks.new q ≡ hold_after_free (tree.get key_cmp locks.old) (key.now ∷ []) q }
{
    let _ = locks.remove(key);
}

fn free_keys(locks: &mut BTreeMap<Key, Hold>, keys: &[Key])
    ensures { (q : Key) → tree.get key_cmp locks.new q ≡ hold_after_free (tree.get key_cmp locks.old) keys.now q }
{
    let mut rest = keys;
    while let [first, others @ ..] = rest {
        free_key(locks, first);
        rest = others;
    }
}

/// Frees the keys of all these changes.
pub fn free_changes(locks: &mut BTreeMap<Key, Hold>, changes: &[TouchedKeys])
    ensures { (q : Key) → tree.get key_cmp locks.new q ≡ hold_after_end (tree.get key_cmp locks.old) changes.now q }
{
    let mut rest = changes;
    while let [first, others @ ..] = rest {
        free_keys(locks, first.items());
        rest = others;
    }
}

fn lesser_of<'k>(key: &'k Key, holder: Xid, later: Option<(&'k Key, Xid)>) -> (&'k Key, Xid)
    ensures { shown_pair result ≡ lesser (key.now, holder) (option_map shown_pair later.entry) }
{
    match later {
        None => (key, holder),
        Some((other, other_holder)) => {
            if other < key {
                (other, other_holder)
            } else {
                (key, holder)
            }
        }
    }
}

/// The least of the keys that another transaction holds, with its holder.
pub fn least_blocked<'k>(
    locks: &BTreeMap<Key, Hold>,
    xid: Xid,
    keys: &'k [Key],
) -> Option<(&'k Key, Xid)>
    ensures { option_map shown_pair result ≡ least (blocked_keys (tree.get key_cmp locks.now) xid keys.now) }
{
    let [first, others @ ..] = keys else {
        return None;
    };
    let later = least_blocked(locks, xid, others);
    match locks.get(first) {
        None => later,
        Some(hold) => {
            if is_same(hold.holder, xid) {
                later
            } else {
                Some(lesser_of(first, hold.holder, later))
            }
        }
    }
}
