//! A shared block. A write copies it where it has another owner, and else changes it where it is.

ghost use Rattle.std.specs.Prelude.{◌≡◌, ◌++◌, Some, IfOk, OnOk, IfSome};
ghost use Rattle.std.specs.List.{flat_map};
ghost use Rattle.std.specs.FinMap.Entries.{put};
ghost use Rattle.std.specs.Arc.{arc_value};
ghost use Rattle.rl_value.specs.Order.{row_cmp};
ghost use Rattle.row_tree.specs.Entries.{first_key, begun, and_more};
ghost use Rattle.row_tree.specs.Heads.{head_of};
ghost use Rattle.row_tree.specs.Sound.{AreSound, IsBlock};

use crate::item::{Item, is_not_above};
use crate::level::Level;
use crate::part::Part;
use rl_value::{NoMemory, Row};
use std::alloc::Global;
use std::sync::Arc;

/// A block with its first entry, so that its least key is at hand without a way down.
#[derive(Drop)]
pub(crate) struct Block<K> {
    pub(crate) first: Item,
    pub(crate) level: Level<K>,
}

/// A shared block, with the number that its least key begins with.
#[derive(Drop)]
pub(crate) struct Node<K> {
    pub(crate) block: Arc<Block<K>>,
    head: Option<i64>,
}

impl<K: Part + Drop> Block<K> {
    // Puts an entry in place of the one with its key. A first entry below the key stays the first.
    fn put(&mut self, item: Item) -> Result<(), NoMemory>
        requires sound { AreSound K.entries K.sound self.old.level.children.items }
        requires first { first_key (flat_map K.entries self.old.level.children.items) ≡ Some (arc_value self.old.first.entry).key }
        ensures put { OnOk result (flat_map K.entries self.new.level.children.items ≡
            put row_cmp (arc_value item.entry).key (arc_value item.entry).row
            (flat_map K.entries self.old.level.children.items)) }
        ensures sound { OnOk result (AreSound K.entries K.sound self.new.level.children.items) }
        ensures first { OnOk result (first_key (flat_map K.entries self.new.level.children.items) ≡
            Some (arc_value self.new.first.entry).key) }
    {
        let replaced = is_not_above(&item, &self.first);
        self.level.put(item)?;
        if replaced {
            self.first = self.level.first()?;
        }
        Ok(())
    }
}

impl<K: Part + Drop> Node<K> {
    fn of(alloc: Global, level: Level<K>) -> Result<Node<K>, NoMemory>
        requires sound { AreSound K.entries K.sound level.children.items }
        ensures same { IfOk result (λ node. (arc_value node.block).level ≡ level) }
        ensures first { IfOk result (λ node. first_key (flat_map K.entries (arc_value node.block).level.children.items) ≡
            Some (arc_value (arc_value node.block).first.entry).key) }
        ensures head { IfOk result (λ node. node.head ≡ head_of (arc_value (arc_value node.block).first.entry).key) }
    {
        let first = level.first()?;
        let head = first.head;
        match Arc::new(alloc, Block { first, level }) {
            Ok(block) => Ok(Node { block, head }),
            Err(_) => Err(NoMemory),
        }
    }

    /// The parts themselves, or other owners of them where the block has another owner.
    fn own(self) -> Result<Level<K>, NoMemory>
        requires sound { AreSound K.entries K.sound (arc_value self.block).level.children.items }
        ensures same { IfOk result (λ level. flat_map K.entries level.children.items ≡
            flat_map K.entries (arc_value self.block).level.children.items) }
        ensures sound { IfOk result (λ level. AreSound K.entries K.sound level.children.items) }
    {
        match Arc::try_unwrap(self.block) {
            Ok(block) => Ok(block.level),
            Err(shared) => shared.level.copy(),
        }
    }

    // Copies the block where it has another owner.
    fn unshare(&mut self) -> Result<(), NoMemory>
        requires sound { IsBlock K.entries K.sound (arc_value self.old.block).level.children.items
            (arc_value (arc_value self.old.block).first.entry).key self.old.head }
        ensures same { OnOk result (flat_map K.entries (arc_value self.new.block).level.children.items ≡
            flat_map K.entries (arc_value self.old.block).level.children.items) }
        ensures sound { OnOk result (IsBlock K.entries K.sound (arc_value self.new.block).level.children.items
            (arc_value (arc_value self.new.block).first.entry).key self.new.head) }
    {
        if Arc::strong_count(&self.block) == 1 {
            return Ok(());
        }
        let first = self.block.first.share()?;
        let level = self.block.level.copy()?;
        let alloc = *level.children.allocator();
        match Arc::new(alloc, Block { first, level }) {
            Ok(block) => {
                self.block = block;
                Ok(())
            }
            Err(_) => Err(NoMemory),
        }
    }

    /// Puts an entry in place of the one with its key, and never cuts: so the highest block has no limit.
    pub(crate) fn put_whole(&mut self, item: Item) -> Result<(), NoMemory>
        requires sound { IsBlock K.entries K.sound (arc_value self.old.block).level.children.items
            (arc_value (arc_value self.old.block).first.entry).key self.old.head }
        ensures put { OnOk result (flat_map K.entries (arc_value self.new.block).level.children.items ≡
            put row_cmp (arc_value item.entry).key (arc_value item.entry).row
            (flat_map K.entries (arc_value self.old.block).level.children.items)) }
        ensures sound { OnOk result (IsBlock K.entries K.sound (arc_value self.new.block).level.children.items
            (arc_value (arc_value self.new.block).first.entry).key self.new.head) }
    {
        self.unshare()?;
        match Arc::get_mut(&mut self.block) {
            // Nobody else has the block.
            None => Err(NoMemory),
            Some(block) => {
                block.put(item)?;
                self.head = block.first.head;
                Ok(())
            }
        }
    }

    // Cuts the end off a block with too many parts.
    fn cut(&mut self) -> Result<Option<Level<K>>, NoMemory>
        requires sound { IsBlock K.entries K.sound (arc_value self.old.block).level.children.items
            (arc_value (arc_value self.old.block).first.entry).key self.old.head }
        ensures same { IfOk result (λ end. flat_map K.entries (arc_value self.new.block).level.children.items ++
            and_more (λ l. flat_map K.entries l.children.items) end ≡
            flat_map K.entries (arc_value self.old.block).level.children.items) }
        ensures sound { IfOk result (λ _. IsBlock K.entries K.sound (arc_value self.new.block).level.children.items
            (arc_value (arc_value self.new.block).first.entry).key self.new.head) }
        ensures end { IfOk result (λ end. IfSome end (λ l. AreSound K.entries K.sound l.children.items)) }
    {
        if !self.block.level.is_large() {
            return Ok(None);
        }
        match Arc::get_mut(&mut self.block) {
            // Who cuts a block has just written it.
            None => Err(NoMemory),
            Some(block) => {
                let end = block.level.cut()?;
                block.first = block.level.first()?;
                self.head = block.first.head;
                Ok(Some(end))
            }
        }
    }
}

impl<K: Part + Drop> Part for Node<K> {
    ghost entries = { λ n. flat_map K.entries (arc_value n.block).level.children.items };

    ghost sound = { λ n. IsBlock K.entries K.sound (arc_value n.block).level.children.items
        (arc_value (arc_value n.block).first.entry).key n.head };

    ghost some = { λ _ sound. begun _ _ sound.first };

    fn one(alloc: Global, item: Item) -> Result<Node<K>, NoMemory> {
        let level = Level::one(alloc, item)?;
        Node::of(alloc, level)
    }

    fn share(&self) -> Result<Node<K>, NoMemory> {
        match Arc::try_clone(&self.block) {
            Ok(block) => Ok(Node {
                block,
                head: self.head,
            }),
            Err(_) => Err(NoMemory),
        }
    }

    fn least(&self) -> &Row {
        &self.block.first.entry.key
    }

    fn head(&self) -> &Option<i64> {
        &self.head
    }

    fn first(&self) -> Result<Item, NoMemory> {
        self.block.first.share()
    }

    fn get(&self, key: &Row) -> Option<&Row> {
        self.block.level.get(key)
    }

    fn put(&mut self, item: Item) -> Result<Option<Node<K>>, NoMemory> {
        self.put_whole(item)?;
        match self.cut()? {
            None => Ok(None),
            Some(end) => {
                let alloc = *end.children.allocator();
                let end = Node::of(alloc, end)?;
                Ok(Some(end))
            }
        }
    }

    fn remove(self, key: &Row) -> Result<Option<Node<K>>, NoMemory> {
        let mut level = self.own()?;
        let alloc = *level.children.allocator();
        level.remove(key)?;
        if level.is_empty() {
            return Ok(None);
        }
        let node = Node::of(alloc, level)?;
        Ok(Some(node))
    }
}
