//! Commits that are handed to be published together.
ghost use Rattle.std.specs.Prelude.{◌≡◌, ◌≤◌, ◌<◌, IfOk, length};
ghost use Rattle.publisher.specs.Groups.{IsGroup};

use eager_work::Commit;
use rl_value::NoMemory;
use std::marker::Model;

/// The most commits of a group.
pub const MAX_GROUP: usize = 64;

/// A list of 1 to `MAX_GROUP` commits whose numbers rise by one.
#[derive(Debug, Drop)]
pub struct Commits {
    items: Vec<Commit>,
}

impl Model for Commits {
    ghost use Rattle.std.specs.Prelude.{List};
    ghost use Rattle.eager_work.specs.declared.commit.Commit.{Commit as One};

    ghost Value = { List One };

    ghost use Rattle.publisher.specs.Groups.{IsGroup};

    ghost view = { λ c. c.items.items };

    ghost invariant = { λ c. IsGroup c.items.items };
}

impl Commits {
    /// The list of these commits.
    pub fn of(items: Vec<Commit>) -> Commits
        requires group { IsGroup items.items }
        ensures same { result ≡ items.items }
    {
        Commits { items }
    }

    /// What it holds, in order.
    pub fn items(&self) -> &[Commit]
        ensures group { IsGroup self.now }
        ensures same { result.now ≡ self.now }
    {
        self.items.as_slice()
    }

    /// Gives up what it holds, in order. It takes no memory.
    pub fn into_items(self) -> Vec<Commit>
        ensures group { IsGroup self }
        ensures same { result.items ≡ self }
    {
        self.items
    }

    /// An equal one, which owns memory of its own.
    pub fn copy(&self) -> Result<Commits, NoMemory>
        ensures equal { IfOk result (λ commits. commits ≡ self.now) }
    {
        match copied(&self.items) {
            Ok(items) => Ok(Commits { items }),
            Err(NoMemory) => Err(NoMemory),
        }
    }
}

fn copied(items: &Vec<Commit>) -> Result<Vec<Commit>, NoMemory>
    ensures equal { IfOk result (λ copies. copies.items ≡ items.now.items) }
{
    let Ok(mut copies) = Vec::with_capacity(*items.allocator(), items.len()) else {
        return Err(NoMemory);
    };
    for commit in items {
        let commit = commit.copy()?;
        if copies.push(commit).is_err() {
            return Err(NoMemory);
        }
    }
    Ok(copies)
}
