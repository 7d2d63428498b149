//! The transactions of a pair, A and B: which they are, and a record of their changes.
ghost use Rattle.std.specs.Prelude.{◌≡◌, ◌≤◌, ◌+◌, ◌*◌, IfOk, Some, None};
ghost use Rattle.workload.specs.Pairs.{second_of, pair_of, starts, with_b, changes_drawn};

use crate::accounts::xid_of;
use crate::balances::Balances;
use crate::bodies::{one, two};
use crate::drawing::{Drawing, Step};
use crate::draws::next_state;
use crate::left::Left;
use redo_vec::{Vector, Vectors};
use rl_value::NoMemory;
use std::alloc::Global;

/// The transactions of a pair; the last pair may have no B.
#[derive(Drop)]
pub struct Pair {
    pub a: Drawing,
    pub b: Option<Drawing>,
}

/// The vectors of a record of changes, the state of the generator behind it, and the pair.
#[derive(Drop)]
pub struct Drawn {
    pub x: u64,
    pub vectors: Vectors,
    pub pair: Pair,
}

fn second_of(txns: u32, p: u64, even: &Balances) -> Result<Option<Drawing>, NoMemory>
    requires last { 2 * p ≤ txns + 1 }
    ensures { IfOk result (λ b. b ≡ second_of txns p even.now) }
{
    if 2 * p > u64::from(txns) {
        return Ok(None);
    }
    let b = Drawing::of((2 * p) as u32, 2, even)?;
    Ok(Some(b))
}

impl Pair {
    /// The transactions of pair p, of so many in all.
    pub fn of(txns: u32, p: u64, left: &Left) -> Result<Pair, NoMemory>
        requires first { 1 ≤ p }
        requires last { 2 * p ≤ txns + 1 }
        ensures { IfOk result (λ pair. pair ≡ pair_of txns p left.now) }
    {
        let a = Drawing::of((2 * p - 1) as u32, 1, &left.odd)?;
        let b = second_of(txns, p, &left.even)?;
        Ok(Pair { a, b })
    }

    /// The vectors of its first record.
    pub fn starts(&self, alloc: Global) -> Result<Vectors, NoMemory>
        ensures { IfOk result (λ vectors. vectors ≡ starts self.now) }
    {
        let first = Vector::Start(xid_of(self.a.number));
        match &self.b {
            None => one(alloc, first),
            Some(b) => two(alloc, first, Vector::Start(xid_of(b.number))),
        }
    }

    /// A change of A and then one of B, from this state on.
    #[tactic(auto, unfolding(crate::specs::Pairs::changes_drawn))]
    pub fn changes(self, alloc: Global, x: u64) -> Result<Drawn, NoMemory>
        ensures { IfOk result (λ drawn. drawn ≡ changes_drawn x self) }
    {
        let Pair { a, b } = self;
        let y = next_state(x);
        let z = next_state(y);
        let first = a.change(alloc, y, z)?;
        match b {
            None => without_b(alloc, z, first),
            Some(b) => with_b(alloc, z, first, b),
        }
    }
}

fn without_b(alloc: Global, x: u64, first: Step) -> Result<Drawn, NoMemory>
    ensures { IfOk result (λ drawn. drawn ≡ with_b x first None) }
{
    let Step { vector, after } = first;
    let vectors = one(alloc, vector)?;
    Ok(Drawn {
        x,
        vectors,
        pair: Pair { a: after, b: None },
    })
}

fn with_b(alloc: Global, x: u64, first: Step, b: Drawing) -> Result<Drawn, NoMemory>
    ensures { IfOk result (λ drawn. drawn ≡ with_b x first (Some b)) }
{
    let y = next_state(x);
    let z = next_state(y);
    let second = b.change(alloc, y, z)?;
    let Step { vector, after } = first;
    let Step {
        vector: vector_of_b,
        after: b,
    } = second;
    let vectors = two(alloc, vector, vector_of_b)?;
    Ok(Drawn {
        x: z,
        vectors,
        pair: Pair {
            a: after,
            b: Some(b),
        },
    })
}
