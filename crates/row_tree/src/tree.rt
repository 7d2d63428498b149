//! The tree: the highest block, if there is an entry at all.
//!
//! The number of levels stands in the type of the root alone, and the limit of a block in one constant; no proof knows
//! either. The highest block has no limit, so any number of rows fits.

ghost use Rattle.std.specs.Prelude.{◌≡◌, [], IfOk};
ghost use Rattle.std.specs.Option.{option_copied};
ghost use Rattle.std.specs.FinMap.Entries.{find, put};
ghost use Rattle.rl_value.specs.Order.{row_cmp};
ghost use Rattle.row_tree.specs.Entries.{without};

use crate::head::head_of;
use crate::item::{Entry, Item};
use crate::node::Node;
use crate::part::Part;
use crate::walk::{ItemWalk, NodeWalk, Walk};
use rl_value::{NoMemory, Row};
use std::alloc::Global;
use std::marker::Model;
use std::sync::Arc;

type Lowest = Node<Item>;

type Second = Node<Lowest>;

type Third = Node<Second>;

type Root = Node<Third>;

type LowestWalk<'a> = NodeWalk<'a, Item, ItemWalk<'a>>;

type SecondWalk<'a> = NodeWalk<'a, Lowest, LowestWalk<'a>>;

type ThirdWalk<'a> = NodeWalk<'a, Second, SecondWalk<'a>>;

type RootWalk<'a> = NodeWalk<'a, Third, ThirdWalk<'a>>;

/// Rows by their keys. It is seen as its entries, which rise by key.
#[derive(Drop)]
pub struct Tree {
    alloc: Global,
    root: Option<Root>,
}

impl Model for Tree {
    ghost use Rattle.std.specs.Prelude.{IfSome};
    ghost use Rattle.row_tree.specs.Entries.{Entries, and_more};

    ghost Value = { Entries };

    ghost view = { λ t. and_more ⟦<Root as Part>⟧.entries t.root };

    ghost invariant = { λ t. IfSome t.root ⟦<Root as Part>⟧.sound };
}

impl Tree {
    /// No entry. It takes no memory yet.
    pub fn new(alloc: Global) -> Tree
        ensures empty { result ≡ [] }
    {
        Tree { alloc, root: None }
    }

    /// The row of this key.
    pub fn get(&self, key: &Row) -> Option<&Row>
        ensures found { option_copied result ≡ find row_cmp key.now self.now }
    {
        match &self.root {
            None => None,
            Some(root) => root.get(key),
        }
    }

    /// The entries, in rising order of their keys. It takes no memory.
    pub fn entries(&self) -> TreeEntries<'_>
        ensures all { result ≡ self.now }
    {
        match &self.root {
            None => TreeEntries { walk: None },
            Some(root) => TreeEntries {
                walk: Some(RootWalk::over(root)),
            },
        }
    }

    /// An equal tree, which shares the blocks.
    pub fn snapshot(&self) -> Result<Tree, NoMemory>
        ensures equal { IfOk result (λ tree. tree ≡ self.now) }
    {
        match &self.root {
            None => Ok(Tree {
                alloc: self.alloc,
                root: None,
            }),
            Some(root) => {
                let root = root.share()?;
                Ok(Tree {
                    alloc: self.alloc,
                    root: Some(root),
                })
            }
        }
    }

    /// With the row in place of the one with its key. Blocks that only this tree has are changed where they are, the others
    /// are copied, one a level; after want of memory nothing is left of the tree.
    pub fn put(self, key: Row, row: Row) -> Result<Tree, NoMemory>
        ensures put { IfOk result (λ tree. tree ≡ put row_cmp key row self) }
    {
        let alloc = self.alloc;
        let head = head_of(&key);
        let Ok(entry) = Arc::new(alloc, Entry { key, row }) else {
            return Err(NoMemory);
        };
        let item = Item { entry, head };
        match self.root {
            None => {
                let root = Root::one(alloc, item)?;
                Ok(Tree {
                    alloc,
                    root: Some(root),
                })
            }
            Some(root) => {
                let mut root = root;
                root.put_whole(item)?;
                Ok(Tree {
                    alloc,
                    root: Some(root),
                })
            }
        }
    }

    /// Without the row of this key. Blocks are copied or changed as by `put`.
    pub fn remove(self, key: &Row) -> Result<Tree, NoMemory>
        ensures left { IfOk result (λ tree. tree ≡ without key.now self) }
    {
        let alloc = self.alloc;
        match self.root {
            None => Ok(Tree { alloc, root: None }),
            Some(root) => {
                let root = root.remove(key)?;
                Ok(Tree { alloc, root })
            }
        }
    }
}

/// A tree's keys with their rows, in rising order. It is seen as the entries that are left.
#[derive(Drop)]
pub struct TreeEntries<'a> {
    walk: Option<RootWalk<'a>>,
}

impl<'a> Model for TreeEntries<'a> {
    ghost use Rattle.std.specs.Prelude.{IfSome};
    ghost use Rattle.row_tree.specs.Entries.{Entries, and_more};

    ghost Value = { Entries };

    ghost view = { λ e. and_more ⟦<RootWalk<'static> as Walk<'static, Root>>⟧.left e.walk };

    ghost invariant = { λ e. IfSome e.walk ⟦<RootWalk<'static> as Walk<'static, Root>>⟧.sound };
}

impl<'a> Iterator for TreeEntries<'a> {
    type Item = (&'a Row, &'a Row);

    ghost use Rattle.std.specs.Prelude.{length};
    ghost use Rattle.std.specs.Iterator.{at_most};
    ghost use Rattle.std.specs.Map.Iter.{TakesFirst, deref_pair};

    ghost next_gives = { TakesFirst deref_pair };

    ghost remaining = { λ s. at_most (length s) };

    fn next(&mut self) -> Option<(&'a Row, &'a Row)> {
        match &mut self.walk {
            None => None,
            Some(walk) => walk.next(),
        }
    }
}

fn is_for_threads<T: Send + Sync>(_value: &T) {}

/// A tree goes to other threads and is read by them: this is proved of its type here, and not first where it is sent.
pub fn tree_is_for_threads(tree: &Tree) {
    is_for_threads(tree);
}
