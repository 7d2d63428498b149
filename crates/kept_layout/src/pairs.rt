//! What a pair says: the part of a state that its key and its value spell, or none.
//!
//! A pair is judged here by itself. What it has to be behind those before it (a sequence, an id or a rule that is not there
//! yet, and no more of them than the limit) is for whoever reads the pairs of an area in order.
ghost use Rattle.std.specs.Prelude.{◌≡◌, ◌&&◌, ◌==◌, ◌++◌, ◌^◌, nat_le, nat_lt, length, Option, Some, Ok, IfOk};
ghost use Rattle.std.specs.Int.{w32, w64};
ghost use Rattle.std.specs.Option.{option_map};
ghost use Rattle.rl_value.specs.Order.{same_bytes};
ghost use Rattle.redo_vec.specs.Cutting.{number_in};
ghost use Rattle.redo_vec.specs.Reading.{xid_at, table_at};
ghost use Rattle.redo_vec.specs.Spelling.{be32};
ghost use Rattle.redo_spec.specs.LogHeader.{header_in, header_fault};
ghost use Rattle.skip_guard.specs.Rules.{skip_of, rule_of};
ghost use Rattle.log_registry.specs.Registered.{entry_of};
ghost use Rattle.standby_spec.specs.declared.mark.Mark.{Mark as StandbyMark};
ghost use Rattle.standby_spec.specs.Layout.{standby_key, applied_key, mark_key};
ghost use Rattle.standby_spec.specs.Loading.{Applied, no_fault, byte_in, is_log_of, read_whole, level_of, rule_in, applied_step, is_mark_in, lies_in, mark_in, mark_step};
ghost use Rattle.kept_layout.specs.Pairs.{identity_of, identity_of_pair, log_of_pair, table_of_pair, skip_with, skip_of_pair};

use crate::identity::Identity;
use crate::numbers::{behind, byte_at, u32_in, u64_in};
use log_registry::{LogEntry, Next, Registry};
use redo_reader::Place;
use redo_vec::{DecodeFault, TableRow, table_of, xid_of};
use redo_wire::{Header, read_header};
use rl_value::{NoMemory, Scn, Xid};
use skip_guard::{Level, Pattern, SkipEntry, SkipRule};
use standby_spec::Mark;
use std::alloc::Global;

// The numbers of a layout are below 2^62.
const LIMIT: u64 = 0x4000_0000_0000_0000;

fn same(bytes: &[u8], other: &[u8]) -> bool
    ensures { result ≡ same_bytes bytes.now other.now }
{
    bytes == other
}

// ---- area 1: the standby

fn level_in(byte: u8) -> Option<Level>
    ensures { result ≡ level_of byte }
{
    match byte {
        1 => Some(Level::All),
        2 => Some(Level::Standby),
        _ => None,
    }
}

fn is_standby_pair(key: &[u8], value: &[u8]) -> bool
    ensures { result ≡ (same_bytes key.now standby_key && (length value.now == 17)) }
{
    same(key, b"S") && value.len() == 17
}

/// The identity of the standby.
pub fn identity_in(key: &[u8], value: &[u8]) -> Option<Identity>
    ensures exact { option_map identity_of result ≡ identity_of_pair (key.now, value.now) }
{
    if !is_standby_pair(key, value) {
        return None;
    }
    match level_in(byte_at(value, 16)) {
        None => None,
        Some(level) => Some(Identity {
            dbid: u32_in(value, 0),
            first: u32_in(value, 4),
            base: u64_in(value, 8),
            level,
        }),
    }
}

// ---- area 2: registered logs

fn header_of(bytes: &[u8]) -> Header
    ensures { result ≡ header_in bytes.now }
{
    Header {
        seq: u32_in(bytes, 12),
        dbid: u32_in(bytes, 8),
        first: u64_in(bytes, 16),
        next: u64_in(bytes, 24),
        count: u32_in(bytes, 32),
    }
}

// The bytes begin with a header that has no fault where this sequence is asked for.
fn is_header(seq: u32, bytes: &[u8]) -> bool
    ensures { result ≡ no_fault (header_fault seq bytes.now) }
{
    match read_header(bytes, seq) {
        Ok(_head) => true,
        Err(_fault) => false,
    }
}

fn is_log(identity: Identity, key: &[u8], value: &[u8]) -> bool
    ensures { result ≡ is_log_of (identity_of identity) key.now value.now }
{
    is_header(u32_in(key, 0), value)
        && identity.first <= u32_in(key, 0)
        && header_of(value).dbid == identity.dbid
        && 40 <= u64_in(value, 40)
}

fn is_log_pair(identity: Identity, key: &[u8], value: &[u8]) -> bool
    ensures { result ≡ ((length key.now == 4) && (length value.now == 48) &&
        is_log_of (identity_of identity) key.now value.now) }
{
    key.len() == 4 && value.len() == 48 && is_log(identity, key, value)
}

/// The log of a standby of this identity.
pub fn log_in(identity: Identity, key: &[u8], value: &[u8]) -> Option<LogEntry>
    ensures exact { result ≡ log_of_pair (identity_of identity) (key.now, value.now) }
{
    if !is_log_pair(identity, key, value) {
        return None;
    }
    Some(LogEntry {
        head: header_of(value),
        length: u64_in(value, 40),
    })
}

// ---- area 3: tables

fn joined(alloc: Global, key: &[u8], value: &[u8]) -> Result<Vec<u8>, NoMemory>
    ensures { IfOk result (λ bytes. bytes.items ≡ key.now ++ value.now) }
{
    let Ok(mut bytes) = Vec::from_slice(alloc, key) else {
        return Err(NoMemory);
    };
    match bytes.extend_from_slice(value) {
        Ok(()) => Ok(bytes),
        Err(_) => Err(NoMemory),
    }
}

// The table, if nothing is left behind it.
fn table_alone(table: TableRow, left: &[u8]) -> Option<TableRow>
    ensures { result ≡ read_whole (Ok (table, left.now)) }
{
    match left {
        [] => Some(table),
        [_, ..] => None,
    }
}

fn whole_table(alloc: Global, bytes: &[u8]) -> Result<Option<TableRow>, NoMemory>
    ensures { IfOk result (λ found. found ≡ read_whole (table_at 0 bytes.now)) }
{
    match table_of(alloc, 0, bytes) {
        Ok((table, left)) => Ok(table_alone(table, left)),
        Err(DecodeFault::Vector { fault: _, place: _ }) => Ok(None),
        Err(DecodeFault::Memory) => Err(NoMemory),
    }
}

/// The table's definition.
pub fn table_in(alloc: Global, key: &[u8], value: &[u8]) -> Result<Option<TableRow>, NoMemory>
    ensures exact { IfOk result (λ found. found ≡ table_of_pair (key.now, value.now)) }
{
    if key.len() != 4 {
        return Ok(None);
    }
    let bytes = joined(alloc, key, value)?;
    whole_table(alloc, bytes.as_slice())
}

// ---- area 4: skip rules

// The id, if nothing is left behind it.
fn xid_alone(id: Xid, left: &[u8]) -> Option<Xid>
    ensures { result ≡ read_whole (Ok (id, left.now)) }
{
    match left {
        [] => Some(id),
        [_, ..] => None,
    }
}

fn whole_xid(bytes: &[u8]) -> Result<Option<Xid>, NoMemory>
    ensures { IfOk result (λ found. found ≡ read_whole (xid_at 0 bytes.now)) }
{
    match xid_of(0, bytes) {
        Ok((id, left)) => Ok(xid_alone(id, left)),
        Err(DecodeFault::Vector { fault: _, place: _ }) => Ok(None),
        // It takes none.
        Err(DecodeFault::Memory) => Err(NoMemory),
    }
}

fn pattern_rule(alloc: Global, bytes: &[u8]) -> Result<Option<SkipRule>, NoMemory>
    ensures { IfOk result (λ found. option_map rule_of found ≡ rule_in 1 bytes.now) }
{
    let found = Pattern::of(alloc, bytes)?;
    match found {
        None => Ok(None),
        Some(pattern) => Ok(Some(SkipRule::Tables(pattern))),
    }
}

fn xid_rule(bytes: &[u8]) -> Result<Option<SkipRule>, NoMemory>
    ensures { IfOk result (λ found. option_map rule_of found ≡ rule_in 2 bytes.now) }
{
    let found = whole_xid(bytes)?;
    match found {
        None => Ok(None),
        Some(id) => Ok(Some(SkipRule::Transaction(id))),
    }
}

fn rule_of_kind(alloc: Global, kind: u8, bytes: &[u8]) -> Result<Option<SkipRule>, NoMemory>
    ensures { IfOk result (λ found. option_map rule_of found ≡ rule_in kind bytes.now) }
{
    match kind {
        1 => pattern_rule(alloc, bytes),
        2 => xid_rule(bytes),
        _ => Ok(None),
    }
}

fn entry_from(from: u64, rule: SkipRule) -> Option<SkipEntry>
    ensures { option_map skip_of result ≡ skip_with from (rule_of rule) }
{
    if from < LIMIT {
        return Some(SkipEntry { rule, from });
    }
    None
}

fn is_skip_pair(number: u32, key: &[u8], value: &[u8]) -> bool
    ensures { result ≡ (same_bytes key.now (be32 number) && nat_le 9 (length value.now)) }
{
    same(key, &number.to_be_bytes()) && 9 <= value.len()
}

/// The skip rule of this number.
pub fn skip_in(
    alloc: Global,
    number: u32,
    key: &[u8],
    value: &[u8],
) -> Result<Option<SkipEntry>, NoMemory>
    ensures exact { IfOk result (λ found. option_map skip_of found ≡ skip_of_pair number (key.now, value.now)) }
{
    if !is_skip_pair(number, key, value) {
        return Ok(None);
    }
    let rule = rule_of_kind(alloc, byte_at(value, 8), behind(value, 9))?;
    match rule {
        None => Ok(None),
        Some(rule) => Ok(entry_from(u64_in(value, 0), rule)),
    }
}

// ---- area 6: what is applied

fn is_applied_pair(key: &[u8], value: &[u8]) -> bool
    ensures { result ≡ (same_bytes key.now applied_key && (length value.now == 16) &&
        nat_lt (number_in w64 0 value.now) (2 ^ 62)) }
{
    same(key, b"A") && value.len() == 16 && u64_in(value, 0) < LIMIT
}

/// How many commits are applied, and the SCN of the last of them.
pub fn applied_in(key: &[u8], value: &[u8]) -> Option<(u64, Scn)>
    ensures exact { (so_far : Applied) → result ≡ applied_step so_far (key.now, value.now) }
{
    if is_applied_pair(key, value) {
        return Some((u64_in(value, 0), u64_in(value, 8)));
    }
    None
}

// ---- area 7: the mark

fn mark_of(n: u64, value: &[u8]) -> Mark
    ensures { result ≡ mark_in n value.now }
{
    Mark {
        q: u64_in(value, 1),
        m: u64_in(value, 9),
        before: u64_in(value, 17),
        place: Place {
            seq: u32_in(value, 25),
            at: u64_in(value, 29),
            done: u32_in(value, 37),
            rec: u64_in(value, 1),
        },
        q_scn: u64_in(value, 41),
        m_scn: u64_in(value, 49),
        commit_scn: u64_in(value, 57),
        n,
    }
}

// The place is one between two records of the log.
fn lies_in_log(mark: Mark, entry: &LogEntry) -> bool
    ensures { result ≡ lies_in mark (Some entry.now) }
{
    40 <= mark.place.at && mark.place.at <= entry.length && mark.place.done <= entry.head.count
}

fn lies_in_logs(mark: Mark, logs: &Registry) -> bool
    ensures { result ≡ lies_in mark (entry_of mark.place.seq logs.now) }
{
    match logs.next(mark.place.seq) {
        Next::Log(entry) => lies_in_log(mark, entry),
        Next::End => false,
        Next::Gap { low: _, high: _ } => false,
    }
}

fn is_small(mark: Mark) -> bool
    ensures { result ≡ (nat_lt mark.q (2 ^ 62) && nat_lt mark.m (2 ^ 62) && nat_lt mark.before (2 ^ 62) &&
        nat_lt mark.place.at (2 ^ 62)) }
{
    mark.q < LIMIT && mark.m < LIMIT && mark.before < LIMIT && mark.place.at < LIMIT
}

fn is_mark(mark: Mark, logs: &Registry, n: u64) -> bool
    ensures { result ≡ is_mark_in logs.now n mark }
{
    is_small(mark) && mark.q <= mark.m && mark.before <= n && lies_in_logs(mark, logs)
}

fn has_mark_form(key: &[u8], value: &[u8]) -> bool
    ensures { result ≡ (same_bytes key.now mark_key && (length value.now == 65) && (byte_in 0 value.now == 1)) }
{
    same(key, b"M") && value.len() == 65 && byte_at(value, 0) == 1
}

fn is_mark_pair(key: &[u8], value: &[u8], logs: &Registry, n: u64) -> bool
    ensures { result ≡ (same_bytes key.now mark_key && (length value.now == 65) && (byte_in 0 value.now == 1) &&
        is_mark_in logs.now n (mark_in n value.now)) }
{
    has_mark_form(key, value) && is_mark(mark_of(n, value), logs, n)
}

/// The mark, where these logs are registered and so many commits are applied.
pub fn mark_in(key: &[u8], value: &[u8], logs: &Registry, n: u64) -> Option<Mark>
    ensures exact { (so_far : Option StandbyMark) → option_map (λ mark. Some mark) result ≡
        mark_step logs.now n so_far (key.now, value.now) }
{
    if is_mark_pair(key, value, logs, n) {
        return Some(mark_of(n, value));
    }
    None
}
