//! The logs of a workload in an archive in memory.
//!
//! A log is put there when it is whole, so what is held beside the logs is the text of one log and 1,000 balances.
ghost use Rattle.std.specs.Prelude.{◌≡◌, ◌≤◌, ◌+◌, ◌-◌, ◌*◌, IfOk};
ghost use Rattle.workload.specs.Accounts.{dictionary_vectors};
ghost use Rattle.workload.specs.Workload.{first_pair, last_pair, log_count, left_begun, workload_logs, held_logs};
ghost use Rattle.workload.specs.Texts.{text_at, text_with, after_log, with_log, logs_put, logs_begun};

use crate::accounts::dictionary;
use crate::balances::Balances;
use crate::header::spelled_log;
use crate::left::Left;
use crate::text::Text;
use crate::written::{Put, put_pairs};
use rl_mem::SureArchive;
use rl_value::NoMemory;
use std::alloc::Global;

/// How many pairs a log has.
const LOG_PAIRS: u64 = 1000;

/// The logs so far, the text of the one that is being written, and what is left to its next pair.
#[derive(Drop)]
pub struct Logs {
    pub archive: SureArchive,
    pub text: Text,
    pub left: Left,
}

// ---- which pairs a log has

fn first_pair(seq: u32) -> u64
    requires { 1 ≤ seq }
    ensures value { result ≡ first_pair seq }
    ensures some { 1 ≤ result }
{
    (u64::from(seq) - 1) * LOG_PAIRS + 1
}

fn last_pair(txns: u32, seq: u32) -> u64
    ensures value { result ≡ last_pair txns seq }
    ensures most { 2 * result ≤ txns + 1 }
{
    let all = (u64::from(txns) + 1) / 2;
    let full = u64::from(seq) * LOG_PAIRS;
    if full < all { full } else { all }
}

fn log_count(txns: u32) -> u32
    ensures value { result ≡ log_count txns }
    ensures most { result ≤ 4294967 }
{
    (((u64::from(txns) + 1) / 2 + LOG_PAIRS - 1) / LOG_PAIRS) as u32
}

// ---- a log

fn after_log(alloc: Global, seq: u32, archive: SureArchive, put: Put) -> Result<Logs, NoMemory>
    ensures { IfOk result (λ logs. logs ≡ after_log seq archive put) }
{
    let mut archive = archive;
    let Put { text, left } = put;
    let head = text.head(seq)?;
    let bytes = spelled_log(alloc, head, text.bytes.bytes())?;
    archive.put_log(seq, bytes)?;
    Ok(Logs {
        archive,
        text: Text::new(alloc, head.next),
        left,
    })
}

fn with_log(alloc: Global, txns: u32, seq: u32, logs: Logs) -> Result<Logs, NoMemory>
    requires { 1 ≤ seq }
    ensures { IfOk result (λ after. after ≡ with_log txns seq logs) }
{
    let Logs {
        archive,
        text,
        left,
    } = logs;
    let first = first_pair(seq);
    let last = last_pair(txns, seq);
    let put = put_pairs(alloc, txns, first, last + 1, Put { text, left })?;
    after_log(alloc, seq, archive, put)
}

// ---- all logs

fn first_text(alloc: Global) -> Result<Text, NoMemory>
    ensures { IfOk result (λ text. text ≡ text_with dictionary_vectors (text_at 1)) }
{
    let vectors = dictionary(alloc)?;
    Text::new(alloc, 1).with(alloc, vectors)
}

fn left_begun(alloc: Global, seed: u64) -> Result<Left, NoMemory>
    ensures { IfOk result (λ left. left ≡ left_begun seed) }
{
    let odd = Balances::none(alloc)?;
    let even = Balances::none(alloc)?;
    Ok(Left { x: seed, odd, even })
}

fn logs_begun(alloc: Global, seed: u64) -> Result<Logs, NoMemory>
    ensures { IfOk result (λ logs. logs ≡ logs_begun seed) }
{
    let text = first_text(alloc)?;
    let left = left_begun(alloc, seed)?;
    Ok(Logs {
        archive: SureArchive::new(alloc),
        text,
        left,
    })
}

// The logs of the sequences from 1 on to the one before `end`.
fn put_logs(alloc: Global, txns: u32, end: u32, logs: Logs) -> Result<Logs, NoMemory>
    ensures { IfOk result (λ after. after ≡ logs_put txns (end - 1) 1 logs) }
{
    let mut after = logs;
    for seq in 1..end {
        let next = with_log(alloc, txns, seq, after)?;
        after = next;
    }
    Ok(after)
}

fn logs_of(alloc: Global, seed: u64, txns: u32) -> Result<Logs, NoMemory>
    ensures { IfOk result (λ logs. logs ≡ logs_put txns (log_count txns) 1 (logs_begun seed)) }
{
    let begun = logs_begun(alloc, seed)?;
    put_logs(alloc, txns, log_count(txns) + 1, begun)
}

/// The logs that a seed and a count of transactions make, each under its sequence, from 1 on (docs/FORMATS.md, "The generated
/// workload"). The same two numbers always make the same logs, and no transactions make none. It takes time in a straight line of
/// the count, and memory for the logs and one more.
pub fn generate(alloc: Global, seed: u64, txns: u32) -> Result<SureArchive, NoMemory>
    ensures logs { IfOk result (λ archive. archive ≡ held_logs (workload_logs seed txns)) }
{
    let logs = logs_of(alloc, seed, txns)?;
    let Logs { archive, .. } = logs;
    Ok(archive)
}
