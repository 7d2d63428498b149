//! The changes of one chunk that were done, shared by each work that goes on from them.
//!
//! They are never written again: an UNDO only lowers the number of changes that stand.
ghost use Rattle.std.specs.Prelude.{◌≡◌, ◌++◌, ◌∷◌, [], IfOk, OnOk, length, take};
ghost use Rattle.eager_work.specs.Keeping.{joined};

use crate::did::Did;
use rl_value::NoMemory;
use std::alloc::Global;
use std::marker::Model;
use std::sync::Arc;

/// Changes that were done, in order.
#[derive(Drop)]
pub(crate) struct Part {
    dids: Arc<Vec<Did>>,
}

impl Model for Part {
    ghost use Rattle.std.specs.Prelude.{List};
    ghost use Rattle.std.specs.Arc.{arc_value};
    ghost use Rattle.eager_work.specs.declared.did.Did.{Did};

    ghost Value = { List Did };

    ghost view = { λ p. (arc_value p.dids).items };
}

impl Part {
    /// These changes.
    pub(crate) fn of(alloc: Global, dids: Vec<Did>) -> Result<Part, NoMemory>
        ensures same { IfOk result (λ part. part ≡ dids.items) }
    {
        match Arc::new(alloc, dids) {
            Ok(dids) => Ok(Part { dids }),
            Err(_) => Err(NoMemory),
        }
    }

    /// How many there are.
    pub(crate) fn len(&self) -> usize
        ensures exact { result ≡ length self.now }
    {
        self.dids.len()
    }

    /// The first so many, or all where there are no more.
    #[tactic(auto, using(crate::proofs::Undoing::all_taken))]
    pub(crate) fn front(&self, count: usize) -> &[Did]
        ensures exact { result.now ≡ take count self.now }
    {
        let dids = self.dids.as_slice();
        if count < dids.len() {
            &dids[..count]
        } else {
            dids
        }
    }

    /// An equal one, which shares the changes.
    pub(crate) fn copy(&self) -> Result<Part, NoMemory>
        ensures equal { IfOk result (λ part. part ≡ self.now) }
    {
        match Arc::try_clone(&self.dids) {
            Ok(dids) => Ok(Part { dids }),
            Err(_) => Err(NoMemory),
        }
    }
}

fn copied_dids(alloc: Global, dids: &[Did]) -> Result<Vec<Did>, NoMemory>
    ensures equal { IfOk result (λ copies. copies.items ≡ dids.now) }
{
    let Ok(mut copies) = Vec::with_capacity(alloc, dids.len()) else {
        return Err(NoMemory);
    };
    for did in dids {
        let did = did.copy()?;
        if copies.push(did).is_err() {
            return Err(NoMemory);
        }
    }
    Ok(copies)
}

// The first so many changes of the part. All of them are shared, and fewer are copied.
#[tactic(auto, using(crate::proofs::Undoing::all_taken))]
fn front_part(alloc: Global, part: &Part, count: usize) -> Result<Part, NoMemory>
    ensures { IfOk result (λ front. front ≡ take count part.now) }
{
    if part.len() <= count {
        return part.copy();
    }
    let dids = copied_dids(alloc, part.front(count))?;
    Part::of(alloc, dids)
}

fn push_part(parts: &mut Vec<Part>, part: Part) -> Result<(), NoMemory>
    ensures { OnOk result (parts.new.items ≡ parts.old.items ++ part ∷ []) }
{
    match parts.push(part) {
        Ok(()) => Ok(()),
        Err(_) => Err(NoMemory),
    }
}

/// The parts of so many of the changes: what an UNDO took back is left out.
pub(crate) fn settled(alloc: Global, parts: &[Part], standing: usize) -> Result<Vec<Part>, NoMemory>
    ensures { IfOk result (λ settled. joined settled.items ≡ take standing (joined parts.now)) }
{
    let mut settled = Vec::new(alloc);
    let mut left = standing;
    for part in parts {
        if left == 0 {
            return Ok(settled);
        }
        let front = front_part(alloc, part, left)?;
        push_part(&mut settled, front)?;
        left = left.saturating_sub(part.len());
    }
    Ok(settled)
}

/// The parts with these changes behind them, if there are any.
pub(crate) fn with_part(
    alloc: Global,
    parts: Vec<Part>,
    done: Vec<Did>,
) -> Result<Vec<Part>, NoMemory>
    ensures { IfOk result (λ after. joined after.items ≡ joined parts.items ++ done.items) }
{
    if done.is_empty() {
        return Ok(parts);
    }
    let mut parts = parts;
    let part = Part::of(alloc, done)?;
    push_part(&mut parts, part)?;
    Ok(parts)
}

/// The same parts.
pub(crate) fn copied_parts(parts: &Vec<Part>) -> Result<Vec<Part>, NoMemory>
    ensures equal { IfOk result (λ copies. copies.items ≡ parts.now.items) }
{
    let Ok(mut copies) = Vec::with_capacity(*parts.allocator(), parts.len()) else {
        return Err(NoMemory);
    };
    for part in parts {
        let part = part.copy()?;
        if copies.push(part).is_err() {
            return Err(NoMemory);
        }
    }
    Ok(copies)
}
