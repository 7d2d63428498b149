//! The lines of a log's contents, one for each vector but those of the dictionary.
ghost use Rattle.std.specs.Prelude.{◌≡◌, ◌++◌, ◌∷◌, [], OnOk, IfOk};
ghost use Rattle.std.specs.Option.{option_map_or};
ghost use Rattle.std.specs.Fmt.{decimal};
ghost use Rattle.rl_value.specs.Literal.{xid_text};
ghost use Rattle.redo_spec.specs.Skips.{full_name};
ghost use Rattle.redo_spec.specs.Lines.{words, pos_text};
ghost use Rattle.sql_text.specs.Contents.{lead, word_line, op_word, texts_of, texts_by, change_line, undo_line, vector_line};

use crate::output::{push_bytes, push_decimal};
use crate::statement::{push_redo, push_undo};
use redo_dict::Dict;
use redo_vec::{Change, Op, TableRow, Vector};
use rl_value::{Bytes, NoMemory, Pos, Scn, Xid};
use std::alloc::Global;

/// What a line of a change has room for at first.
const ROOM: usize = 256;

fn push_pos(out: &mut Vec<u8>, at: Pos) -> Result<(), NoMemory>
    ensures { OnOk result (out.new.items ≡ out.old.items ++ pos_text at) }
{
    push_decimal(out, at.rec)?;
    push_bytes(out, b".")?;
    push_decimal(out, u64::from(at.vec))
}

fn push_slot(out: &mut Vec<u8>, xid: Xid) -> Result<(), NoMemory>
    ensures { OnOk result (out.new.items ≡ out.old.items ++ (decimal xid.slot ++ 46 ∷ decimal xid.sqn)) }
{
    push_decimal(out, u64::from(xid.slot))?;
    push_bytes(out, b".")?;
    push_decimal(out, u64::from(xid.sqn))
}

fn push_xid(out: &mut Vec<u8>, xid: Xid) -> Result<(), NoMemory>
    ensures { OnOk result (out.new.items ≡ out.old.items ++ xid_text xid) }
{
    push_decimal(out, u64::from(xid.usn))?;
    push_bytes(out, b".")?;
    push_slot(out, xid)
}

// The SCN, the position and the transaction.
fn push_lead(out: &mut Vec<u8>, scn: Scn, at: Pos, xid: Xid) -> Result<(), NoMemory>
    ensures { OnOk result (out.new.items ≡ out.old.items ++ words (lead scn at xid)) }
{
    push_decimal(out, scn)?;
    push_bytes(out, b" ")?;
    push_pos(out, at)?;
    push_bytes(out, b" ")?;
    push_xid(out, xid)
}

fn lead_line(alloc: Global, scn: Scn, at: Pos, xid: Xid) -> Result<Vec<u8>, NoMemory>
    ensures { IfOk result (λ line. line.items ≡ words (lead scn at xid)) }
{
    let Ok(mut line) = Vec::with_capacity(alloc, ROOM) else {
        return Err(NoMemory);
    };
    push_lead(&mut line, scn, at, xid)?;
    Ok(line)
}

fn push_word(out: &mut Vec<u8>, word: &[u8]) -> Result<(), NoMemory>
    ensures { OnOk result (out.new.items ≡ out.old.items ++ 32 ∷ word.now) }
{
    push_bytes(out, b" ")?;
    push_bytes(out, word)
}

fn line_of_word(
    alloc: Global,
    word: &[u8],
    scn: Scn,
    at: Pos,
    xid: Xid,
) -> Result<Vec<u8>, NoMemory>
    ensures { IfOk result (λ line. line.items ≡ word_line word.now scn at xid) }
{
    let mut line = lead_line(alloc, scn, at, xid)?;
    push_word(&mut line, word)?;
    Ok(line)
}

/// The line of a vector that is told by one word, at its position in a record of this SCN.
pub fn word_line(alloc: Global, word: &[u8], scn: Scn, at: Pos, xid: Xid) -> Result<Bytes, NoMemory>
    ensures value { IfOk result (λ line. line ≡ word_line word.now scn at xid) }
{
    let line = line_of_word(alloc, word, scn, at, xid)?;
    Ok(Bytes::of(line))
}

fn push_undone(out: &mut Vec<u8>, undone: Option<Pos>) -> Result<(), NoMemory>
    ensures { OnOk result (out.new.items ≡ out.old.items ++ option_map_or pos_text undone []) }
{
    match undone {
        Some(at) => push_pos(out, at),
        None => Ok(()),
    }
}

fn undo_line(
    alloc: Global,
    scn: Scn,
    at: Pos,
    xid: Xid,
    undone: Option<Pos>,
) -> Result<Bytes, NoMemory>
    ensures { IfOk result (λ line. line ≡ undo_line scn at xid undone) }
{
    let mut line = line_of_word(alloc, b"UNDO", scn, at, xid)?;
    push_bytes(&mut line, b" ")?;
    push_undone(&mut line, undone)?;
    Ok(Bytes::of(line))
}

fn op_word(op: Op) -> &'static [u8]
    ensures { result.now ≡ op_word op }
{
    match op {
        Op::Insert => b"INSERT",
        Op::Update => b"UPDATE",
        Op::Delete => b"DELETE",
    }
}

fn push_full_name(out: &mut Vec<u8>, table: &TableRow) -> Result<(), NoMemory>
    ensures { OnOk result (out.new.items ≡ out.old.items ++ full_name table.now) }
{
    push_bytes(out, table.schema.items())?;
    push_bytes(out, b".")?;
    push_bytes(out, table.name.items())
}

fn push_both_texts(out: &mut Vec<u8>, table: &TableRow, change: &Change) -> Result<(), NoMemory>
    ensures { OnOk result (out.new.items ≡ out.old.items ++ words (texts_of table.now change.now)) }
{
    push_redo(out, table, change)?;
    push_bytes(out, b" | ")?;
    push_undo(out, table, change)
}

fn push_table_words(out: &mut Vec<u8>, table: &TableRow, change: &Change) -> Result<(), NoMemory>
    ensures { OnOk result (out.new.items ≡ out.old.items
        ++ words (full_name table.now ∷ texts_of table.now change.now)) }
{
    push_full_name(out, table)?;
    push_bytes(out, b" ")?;
    push_both_texts(out, table, change)
}

fn push_texts(out: &mut Vec<u8>, dict: &Dict, change: &Change) -> Result<(), NoMemory>
    ensures { OnOk result (out.new.items ≡ out.old.items ++ words (texts_by dict.now.tables change.now)) }
{
    match dict.def(change.table) {
        Some(table) => push_table_words(out, table, change),
        None => push_bytes(out, b"  | "),
    }
}

/// The line of a change at its position in a record of this SCN.
pub fn change_line(
    alloc: Global,
    dict: &Dict,
    scn: Scn,
    at: Pos,
    change: &Change,
) -> Result<Bytes, NoMemory>
    ensures value { IfOk result (λ line. line ≡ change_line dict.now.tables scn (at, change.now)) }
{
    let mut line = line_of_word(alloc, op_word(change.op), scn, at, change.xid)?;
    push_bytes(&mut line, b" ")?;
    push_texts(&mut line, dict, change)?;
    Ok(Bytes::of(line))
}

/// The line of a vector at its position in a record of this SCN, and, of an UNDO, the position that it takes back. None
/// exactly of TABLE and DICTEND.
pub fn contents(
    alloc: Global,
    scn: Scn,
    pos: Pos,
    vector: &Vector,
    dict: &Dict,
    undone: Option<Pos>,
) -> Result<Option<Bytes>, NoMemory>
    ensures value { IfOk result (λ line. line ≡ vector_line dict.now.tables scn pos undone vector.now) }
{
    match vector {
        Vector::Start(xid) => Ok(Some(word_line(alloc, b"START", scn, pos, *xid)?)),
        Vector::Change(change) => Ok(Some(change_line(alloc, dict, scn, pos, change)?)),
        Vector::Undo(xid) => Ok(Some(undo_line(alloc, scn, pos, *xid, undone)?)),
        Vector::Commit(xid) => Ok(Some(word_line(alloc, b"COMMIT", scn, pos, *xid)?)),
        Vector::Rollback(xid) => Ok(Some(word_line(alloc, b"ROLLBACK", scn, pos, *xid)?)),
        Vector::Table(_) | Vector::DictEnd => Ok(None),
    }
}
