//! The records of pairs, which are spelled as they are drawn.
//!
//! What is drawn is handed from step to step, so after a refusal nothing of it is left.
ghost use Rattle.std.specs.Prelude.{◌≡◌, ◌≤◌, ◌+◌, ◌-◌, ◌*◌, ◌∷◌, [], IfOk};
ghost use Rattle.workload.specs.Draws.{next_state};
ghost use Rattle.workload.specs.Pairs.{starts, records_drawn, change_records, end_vector, balances_after, ends_made, pair_made};
ghost use Rattle.workload.specs.Workload.{pairs_made};
ghost use Rattle.workload.specs.Texts.{text_with, with_changes, put_all, put_made};

use crate::balances::Balances;
use crate::bodies::one;
use crate::drawing::{Drawing, end_vector};
use crate::draws::next_state;
use crate::left::Left;
use crate::pair::{Drawn, Pair};
use crate::text::Text;
use rl_value::NoMemory;
use std::alloc::Global;

/// The text of a log, the state of the generator, and the pair that is being drawn.
#[derive(Drop)]
pub struct Written {
    pub text: Text,
    pub x: u64,
    pub pair: Pair,
}

/// The text of a log behind a pair, and what is left to the next one.
#[derive(Drop)]
pub struct Put {
    pub text: Text,
    pub left: Left,
}

// ---- the changes of a pair

fn with_changes(alloc: Global, written: Written) -> Result<Written, NoMemory>
    ensures { IfOk result (λ after. after ≡ with_changes written) }
{
    let Written { text, x, pair } = written;
    let drawn = pair.changes(alloc, x)?;
    let Drawn { x, vectors, pair } = drawn;
    let text = text.with(alloc, vectors)?;
    Ok(Written { text, x, pair })
}

fn put_records(alloc: Global, count: u32, written: Written) -> Result<Written, NoMemory>
    ensures { IfOk result (λ after. after ≡ put_all (records_drawn count written.x written.pair) written.text) }
{
    let mut after = written;
    for _ in 0..count {
        let next = with_changes(alloc, after)?;
        after = next;
    }
    Ok(after)
}

// ---- its ends

fn put_end(alloc: Global, text: Text, x: u64, number: u32) -> Result<Text, NoMemory>
    ensures { IfOk result (λ after. after ≡ text_with (end_vector x number ∷ []) text) }
{
    let end = end_vector(x, number);
    let vectors = one(alloc, end)?;
    text.with(alloc, vectors)
}

// Behind A's end, which leaves these odd balances.
fn put_second_end(
    alloc: Global,
    text: Text,
    x: u64,
    odd: Balances,
    b: Drawing,
) -> Result<Put, NoMemory>
    ensures { IfOk result (λ put. put ≡ record {
      text = text_with (end_vector (next_state x) b.number ∷ []) text;
      left = record { x = next_state x; odd = odd; even = balances_after (next_state x) b };
    }) }
{
    let z = next_state(x);
    let text = put_end(alloc, text, z, b.number)?;
    let even = b.balances_after(z);
    Ok(Put {
        text,
        left: Left { x: z, odd, even },
    })
}

#[tactic(auto, unfolding(crate::specs::Pairs::ends_made))]
fn put_ends(alloc: Global, written: Written, even: Balances) -> Result<Put, NoMemory>
    ensures { IfOk result (λ put. put ≡ put_made (ends_made written.x written.pair even) written.text) }
{
    let Written { text, x, pair } = written;
    let Pair { a, b } = pair;
    let y = next_state(x);
    let text = put_end(alloc, text, y, a.number)?;
    let odd = a.balances_after(y);
    match b {
        None => Ok(Put {
            text,
            left: Left { x: y, odd, even },
        }),
        Some(b) => put_second_end(alloc, text, y, odd, b),
    }
}

// ---- pairs

fn change_records(p: u64) -> u32
    ensures { result ≡ change_records p }
{
    if p % 100 == 0 { 400 } else { 4 }
}

fn put_starts(alloc: Global, text: Text, pair: &Pair) -> Result<Text, NoMemory>
    ensures { IfOk result (λ after. after ≡ text_with (starts pair.now) text) }
{
    let vectors = pair.starts(alloc)?;
    text.with(alloc, vectors)
}

fn put_pair(alloc: Global, txns: u32, p: u64, put: Put) -> Result<Put, NoMemory>
    requires first { 1 ≤ p }
    requires last { 2 * p ≤ txns + 1 }
    ensures { IfOk result (λ after. after ≡ put_made (pair_made txns p put.left) put.text) }
{
    let Put { text, left } = put;
    let pair = Pair::of(txns, p, &left)?;
    let text = put_starts(alloc, text, &pair)?;
    let Left { x, even, .. } = left;
    let count = change_records(p);
    let changed = put_records(alloc, count, Written { text, x, pair })?;
    put_ends(alloc, changed, even)
}

/// Writes the records of the pairs from this one on to the one before `end`.
pub fn put_pairs(alloc: Global, txns: u32, first: u64, end: u64, put: Put) -> Result<Put, NoMemory>
    requires some { 1 ≤ first }
    requires last { 2 * end ≤ txns + 3 }
    ensures { IfOk result (λ after. after ≡ put_made (pairs_made txns (end - first) first put.left) put.text) }
{
    let mut after = put;
    for p in first..end {
        let next = put_pair(alloc, txns, p, after)?;
        after = next;
    }
    Ok(after)
}
