//! A block of any level above the entries: a list of parts of the level beneath.

ghost use Rattle.std.specs.Prelude.{◌≡◌, ◌+◌, ◌++◌, ◌∷◌, [], ◌<◌, ◌≤◌, Some, IfOk, OnOk, IfSome, IsTrue, IsFalse, length, take, drop};
ghost use Rattle.std.specs.Option.{option_copied};
ghost use Rattle.std.specs.List.{flat_map, AllByRecursion};
ghost use Rattle.std.specs.FinMap.Entries.{find, put};
ghost use Rattle.std.specs.Arc.{arc_value};
ghost use Rattle.rl_value.specs.Order.{row_cmp};
ghost use Rattle.row_tree.specs.Entries.{first_key, without, and_more, option_list};
ghost use Rattle.row_tree.specs.Sound.{AreSound};
ghost use Rattle.row_tree.specs.declared.level.TheConstants.{LIMIT};

use crate::item::Item;
use crate::part::Part;
use crate::seek::seek;
use rl_value::{NoMemory, Row};
use std::alloc::Global;

/// How many parts a block has at most.
const LIMIT: usize = 32;

/// Parts, whose entries rise from the first part to the last.
#[derive(Drop)]
pub(crate) struct Level<K> {
    pub(crate) children: Vec<K>,
}

/// The same parts under other owners.
fn shared<K: Part + Drop>(alloc: Global, children: &[K]) -> Result<Vec<K>, NoMemory>
    requires each { AllByRecursion K.sound children.now }
    ensures same { IfOk result (λ copies. flat_map K.entries copies.items ≡ flat_map K.entries children.now) }
    ensures each { IfOk result (λ copies. AllByRecursion K.sound copies.items) }
    ensures len { IfOk result (λ copies. length copies.items ≡ length children.now) }
{
    let Ok(mut copies) = Vec::with_capacity(alloc, children.len()) else {
        return Err(NoMemory);
    };
    for child in children {
        let copy = child.share()?;
        if copies.push(copy).is_err() {
            return Err(NoMemory);
        }
    }
    Ok(copies)
}

/// Inserts one more part behind the one at this place, if there is one.
fn insert_behind<K: Drop>(children: &mut Vec<K>, at: usize, more: Option<K>) -> Result<(), NoMemory>
    requires inside { at < length children.old.items }
    ensures put { OnOk result (children.new.items ≡ take (at + 1) children.old.items ++
        (option_list more ++ drop (at + 1) children.old.items)) }
{
    match more {
        None => Ok(()),
        Some(more) => match children.insert(at + 1, more) {
            Ok(()) => Ok(()),
            Err(_) => Err(NoMemory),
        },
    }
}

/// Puts a part at this place.
fn put_back<K: Drop>(children: &mut Vec<K>, at: usize, child: K) -> Result<(), NoMemory>
    requires inside { at ≤ length children.old.items }
    ensures put { OnOk result (children.new.items ≡ take at children.old.items ++
        child ∷ drop at children.old.items) }
{
    match children.insert(at, child) {
        Ok(()) => Ok(()),
        Err(_) => Err(NoMemory),
    }
}

impl<K: Part + Drop> Level<K> {
    pub(crate) fn one(alloc: Global, item: Item) -> Result<Level<K>, NoMemory>
        ensures one { IfOk result (λ level. flat_map K.entries level.children.items ≡
            ((arc_value item.entry).key, (arc_value item.entry).row) ∷ []) }
        ensures sound { IfOk result (λ level. AreSound K.entries K.sound level.children.items) }
    {
        let child = K::one(alloc, item)?;
        let mut children = Vec::new(alloc);
        match children.push(child) {
            Ok(()) => Ok(Level { children }),
            Err(_) => Err(NoMemory),
        }
    }

    pub(crate) fn copy(&self) -> Result<Level<K>, NoMemory>
        requires sound { AreSound K.entries K.sound self.now.children.items }
        ensures same { IfOk result (λ level. flat_map K.entries level.children.items ≡
            flat_map K.entries self.now.children.items) }
        ensures sound { IfOk result (λ level. AreSound K.entries K.sound level.children.items) }
    {
        let children = shared(*self.children.allocator(), self.children.as_slice())?;
        Ok(Level { children })
    }

    /// The first entry, under another owner.
    pub(crate) fn first(&self) -> Result<Item, NoMemory>
        requires sound { AreSound K.entries K.sound self.now.children.items }
        ensures first { IfOk result (λ item. first_key (flat_map K.entries self.now.children.items) ≡
            Some (arc_value item.entry).key) }
    {
        let children = self.children.as_slice();
        children[0].first()
    }

    pub(crate) fn get(&self, key: &Row) -> Option<&Row>
        requires sound { AreSound K.entries K.sound self.now.children.items }
        ensures found { option_copied result ≡ find row_cmp key.now (flat_map K.entries self.now.children.items) }
    {
        let children = self.children.as_slice();
        let at = seek(children, key);
        children[at].get(key)
    }

    /// Puts an entry in place of the one with its key.
    pub(crate) fn put(&mut self, item: Item) -> Result<(), NoMemory>
        requires sound { AreSound K.entries K.sound self.old.children.items }
        ensures put { OnOk result (flat_map K.entries self.new.children.items ≡
            put row_cmp (arc_value item.entry).key (arc_value item.entry).row (flat_map K.entries self.old.children.items)) }
        ensures sound { OnOk result (AreSound K.entries K.sound self.new.children.items) }
    {
        let at = seek(self.children.as_slice(), &item.entry.key);
        let children = self.children.as_mut_slice();
        let more = children[at].put(item)?;
        insert_behind(&mut self.children, at, more)
    }

    /// Takes the entry of this key away. Perhaps no part is left.
    pub(crate) fn remove(&mut self, key: &Row) -> Result<(), NoMemory>
        requires sound { AreSound K.entries K.sound self.old.children.items }
        ensures left { OnOk result (flat_map K.entries self.new.children.items ≡
            without key.now (flat_map K.entries self.old.children.items)) }
        ensures sound { OnOk result (0 < length self.new.children.items → AreSound K.entries K.sound self.new.children.items) }
    {
        let at = seek(self.children.as_slice(), key);
        let child = self.children.remove(at);
        match child.remove(key)? {
            None => Ok(()),
            Some(child) => put_back(&mut self.children, at, child),
        }
    }

    pub(crate) fn is_empty(&self) -> bool
        ensures none { IsTrue result → flat_map K.entries self.now.children.items ≡ [] }
        ensures some { IsFalse result → 0 < length self.now.children.items }
    {
        match self.children.as_slice() {
            [] => true,
            [_, ..] => false,
        }
    }

    /// It has too many parts.
    pub(crate) fn is_large(&self) -> bool
        ensures more { IsTrue result → LIMIT < length self.now.children.items }
    {
        self.children.len() > LIMIT
    }

    /// Cuts the end off a block with too many parts.
    pub(crate) fn cut(&mut self) -> Result<Level<K>, NoMemory>
        requires sound { AreSound K.entries K.sound self.old.children.items }
        requires large { LIMIT < length self.old.children.items }
        ensures same { IfOk result (λ end. flat_map K.entries self.new.children.items ++
            flat_map K.entries end.children.items ≡ flat_map K.entries self.old.children.items) }
        ensures sound { IfOk result (λ end. AreSound K.entries K.sound self.new.children.items ×
            AreSound K.entries K.sound end.children.items) }
    {
        match self.children.split_off(LIMIT / 2) {
            Ok(children) => Ok(Level { children }),
            Err(_) => Err(NoMemory),
        }
    }
}
