//! The words with which a run's end is told: its verdict, and what caused it.
//! Names come from the dictionary that the records leave, whole or not. Words: docs/FORMATS.md, "Printed lines".
ghost use Rattle.std.specs.Prelude.{◌≡◌, ◌++◌, ◌∷◌, [], OnOk};
ghost use Rattle.std.specs.Fmt.{decimal};
ghost use Rattle.rl_value.specs.Literal.{literal, key_text, xid_text};
ghost use Rattle.redo_spec.specs.Skips.{full_name};
ghost use Rattle.redo_spec.specs.Lines.{table_name, column_name, miss_text, law_text, cause_text, stop_text, pos_text, verdict_text};
ghost use Rattle.standby.specs.Printing.{spaced_words};

use crate::output::{push_bytes, push_decimal, push_number, push_word};
use redo_dict::Dict;
use redo_faults::{cut_word, head_word, vector_word};
use redo_vec::TableRow;
use rl_base::Line;
use rl_text::{put_key, put_value, put_xid};
use rl_value::{Cause, Key, LawFault, Miss, NoMemory, Pos, Stop, Value, Verdict, Xid};
use std::alloc::Global;

/// Puts SCHEMA.NAME at the end.
pub fn push_full_name(out: &mut Vec<u8>, table: &TableRow) -> Result<(), NoMemory>
    ensures { OnOk result (out.new.items ≡ out.old.items ++ full_name table.now) }
{
    push_bytes(out, table.schema.items())?;
    push_bytes(out, b".")?;
    push_bytes(out, table.name.items())
}

fn push_table_name(out: &mut Vec<u8>, dict: &Dict, id: u32) -> Result<(), NoMemory>
    ensures { OnOk result (out.new.items ≡ out.old.items ++ 32 ∷ table_name dict.now.tables id) }
{
    push_bytes(out, b" ")?;
    match dict.def(id) {
        Some(table) => push_full_name(out, table),
        None => Ok(()),
    }
}

fn push_column_name(out: &mut Vec<u8>, dict: &Dict, id: u32, column: u8) -> Result<(), NoMemory>
    ensures { OnOk result (out.new.items ≡ out.old.items ++ 32 ∷ column_name dict.now.tables id column) }
{
    push_bytes(out, b" ")?;
    match dict.def(id) {
        Some(table) => match table.columns.items().get(usize::from(column)) {
            Some(column) => push_bytes(out, column.name.items()),
            None => Ok(()),
        },
        None => Ok(()),
    }
}

fn push_key(alloc: Global, out: &mut Vec<u8>, key: &Key) -> Result<(), NoMemory>
    ensures { OnOk result (out.new.items ≡ out.old.items ++ 32 ∷ key_text key.now.values) }
{
    let mut text = Line::new(alloc);
    put_key(alloc, &mut text, key)?;
    push_word(out, text.items())
}

fn push_xid(alloc: Global, out: &mut Vec<u8>, xid: Xid) -> Result<(), NoMemory>
    ensures { OnOk result (out.new.items ≡ out.old.items ++ 32 ∷ xid_text xid) }
{
    let mut text = Line::new(alloc);
    put_xid(alloc, &mut text, xid)?;
    push_word(out, text.items())
}

fn push_value(alloc: Global, out: &mut Vec<u8>, value: &Value) -> Result<(), NoMemory>
    ensures { OnOk result (out.new.items ≡ out.old.items ++ 32 ∷ literal value.now) }
{
    let mut text = Line::new(alloc);
    put_value(alloc, &mut text, value)?;
    push_word(out, text.items())
}

fn push_pos(alloc: Global, out: &mut Vec<u8>, pos: Pos) -> Result<(), NoMemory>
    ensures { OnOk result (out.new.items ≡ out.old.items ++ 32 ∷ pos_text pos) }
{
    push_number(alloc, out, pos.rec)?;
    push_bytes(out, b".")?;
    push_decimal(alloc, out, u64::from(pos.vec))
}

// A lock: its key, and the transaction that holds it.
fn push_lock(
    alloc: Global,
    out: &mut Vec<u8>,
    dict: &Dict,
    key: &Key,
    holder: Xid,
) -> Result<(), NoMemory>
    ensures { OnOk result (out.new.items ≡ out.old.items ++ spaced_words (table_name dict.now.tables key.now.table
        ∷ decimal key.now.index ∷ key_text key.now.values ∷ xid_text holder ∷ [])) }
{
    push_table_name(out, dict, key.table)?;
    push_number(alloc, out, u64::from(key.index))?;
    push_key(alloc, out, key)?;
    push_xid(alloc, out, holder)
}

fn push_law(alloc: Global, out: &mut Vec<u8>, dict: &Dict, fault: &LawFault) -> Result<(), NoMemory>
    ensures { OnOk result (out.new.items ≡ out.old.items ++ spaced_words (law_text dict.now.tables fault.now)) }
{
    match fault {
        LawFault::Chain => push_word(out, b"CHAIN"),
        LawFault::Scn => push_word(out, b"SCN"),
        LawFault::Alone => push_word(out, b"ALONE"),
        LawFault::Dictionary => push_word(out, b"DICTIONARY"),
        LawFault::Twice => push_word(out, b"TWICE"),
        LawFault::Names => push_word(out, b"NAMES"),
        LawFault::Keys => push_word(out, b"KEYS"),
        LawFault::Limit => push_word(out, b"LIMIT"),
        LawFault::OpenTwice => push_word(out, b"OPENTWICE"),
        LawFault::NotOpen => push_word(out, b"NOTOPEN"),
        LawFault::NoTable => push_word(out, b"NOTABLE"),
        LawFault::Columns => push_word(out, b"COLUMNS"),
        LawFault::Types => push_word(out, b"TYPES"),
        LawFault::Supplement => push_word(out, b"SUPPLEMENT"),
        LawFault::Lock { key, holder } => {
            push_word(out, b"LOCK")?;
            push_lock(alloc, out, dict, key, *holder)
        }
        LawFault::Nothing => push_word(out, b"NOTHING"),
        LawFault::OpenLimit => push_word(out, b"OPENLIMIT"),
    }
}

fn push_cause(alloc: Global, out: &mut Vec<u8>, dict: &Dict, cause: &Cause) -> Result<(), NoMemory>
    ensures { OnOk result (out.new.items ≡ out.old.items ++ spaced_words (cause_text dict.now.tables cause.now)) }
{
    match cause {
        Cause::Head(fault) => {
            push_word(out, b"HEADER")?;
            push_word(out, head_word(*fault))
        }
        Cause::Cut(fault) => push_word(out, cut_word(*fault)),
        Cause::Vector { fault, place } => {
            push_word(out, vector_word(*fault))?;
            push_number(alloc, out, u64::from(*place))
        }
        Cause::Law(fault) => push_law(alloc, out, dict, fault),
    }
}

// The number of a record, and why it is malformed.
fn push_malformed(
    alloc: Global,
    out: &mut Vec<u8>,
    dict: &Dict,
    rec: u64,
    cause: &Cause,
) -> Result<(), NoMemory>
    ensures { OnOk result (out.new.items ≡ out.old.items ++ spaced_words (decimal rec ∷ cause_text dict.now.tables cause.now)) }
{
    push_number(alloc, out, rec)?;
    push_cause(alloc, out, dict, cause)
}

fn push_stop(alloc: Global, out: &mut Vec<u8>, dict: &Dict, stop: &Stop) -> Result<(), NoMemory>
    ensures { OnOk result (out.new.items ≡ out.old.items ++ spaced_words (stop_text dict.now.tables stop.now)) }
{
    match stop {
        Stop::Drained => push_word(out, b"DRAINED"),
        Stop::Gap { low, high } => {
            push_word(out, b"GAP")?;
            push_number(alloc, out, u64::from(*low))?;
            push_number(alloc, out, u64::from(*high))
        }
        Stop::Malformed { rec, cause } => {
            push_word(out, b"MALFORMED")?;
            push_malformed(alloc, out, dict, *rec, cause)
        }
    }
}

fn push_differs(
    alloc: Global,
    out: &mut Vec<u8>,
    logged: &Value,
    found: &Value,
) -> Result<(), NoMemory>
    ensures { OnOk result (out.new.items ≡ out.old.items ++ spaced_words (literal logged.now ∷ literal found.now ∷ [])) }
{
    push_value(alloc, out, logged)?;
    push_value(alloc, out, found)
}

fn push_miss(
    alloc: Global,
    out: &mut Vec<u8>,
    dict: &Dict,
    table: u32,
    miss: &Miss,
) -> Result<(), NoMemory>
    ensures { OnOk result (out.new.items ≡ out.old.items ++ spaced_words (miss_text dict.now.tables table miss.now)) }
{
    match miss {
        Miss::Absent(key) => {
            push_word(out, b"ABSENT")?;
            push_key(alloc, out, key)
        }
        Miss::Differs {
            column,
            logged,
            found,
        } => {
            push_word(out, b"DIFFERS")?;
            push_column_name(out, dict, table, *column)?;
            push_differs(alloc, out, logged, found)
        }
        Miss::Exists(key) => {
            push_word(out, b"EXISTS")?;
            push_key(alloc, out, key)
        }
        Miss::Taken { index, owner } => {
            push_word(out, b"TAKEN")?;
            push_number(alloc, out, u64::from(*index))?;
            push_key(alloc, out, owner)
        }
    }
}

/// Puts the words of a verdict at the end, each behind a space.
pub fn push_verdict(
    alloc: Global,
    out: &mut Vec<u8>,
    dict: &Dict,
    verdict: &Verdict,
) -> Result<(), NoMemory>
    ensures { OnOk result (out.new.items ≡ out.old.items ++ spaced_words (verdict_text dict.now.tables verdict.now)) }
{
    match verdict {
        Verdict::Stopped(stop) => push_stop(alloc, out, dict, stop),
        Verdict::Mismatch {
            scn,
            pos,
            table,
            miss,
        } => {
            push_word(out, b"MISMATCH")?;
            push_number(alloc, out, *scn)?;
            push_pos(alloc, out, *pos)?;
            push_table_name(out, dict, *table)?;
            push_miss(alloc, out, dict, *table, miss)
        }
        Verdict::RowLimit { scn } => {
            push_word(out, b"ROWLIMIT")?;
            push_number(alloc, out, *scn)
        }
    }
}
