//! The lines that a vector gives, in both modes.
ghost use Rattle.std.specs.Prelude.{◌≡◌, ◌++◌, OnOk, map};
ghost use Rattle.std.specs.List.{flat_map};
ghost use Rattle.sql_text.specs.Contents.{change_line};
ghost use Rattle.log_miner.specs.Live.{live_of};
ghost use Rattle.log_miner.specs.MinedLines.{lines_of};
ghost use Rattle.log_miner.specs.Mining.{ended_lines, commit_given, vector_given};

use crate::live::Live;
use crate::lives::{is_of, taken_back};
use crate::mined::MinedLines;
use redo_dict::Dict;
use redo_vec::{Change, Vector};
use rl_value::{Bytes, NoMemory, Pos, Scn, Xid};
use sql_text::{change_line, contents, word_line};
use std::alloc::Global;

fn push_changes(
    alloc: Global,
    out: &mut MinedLines,
    dict: &Dict,
    changes: &[(Scn, (Pos, Change))],
) -> Result<(), NoMemory>
    ensures { OnOk result (out.new ≡ out.old
        ++ map (λ p. change_line dict.now.tables p.0 p.1) changes.now) }
{
    for stamped in changes {
        let line = change_line(alloc, dict, stamped.0, stamped.1.0, &stamped.1.1)?;
        out.push(line)?;
    }
    Ok(())
}

fn push_ended(
    alloc: Global,
    out: &mut MinedLines,
    dict: &Dict,
    scn: Scn,
    at: Pos,
    live: &Live,
) -> Result<(), NoMemory>
    ensures { OnOk result (out.new ≡ out.old ++ ended_lines dict.now.tables scn at live.now) }
{
    let first = word_line(alloc, b"START", live.scn(), live.begun(), live.xid())?;
    out.push(first)?;
    push_changes(alloc, out, dict, live.changes())?;
    let last = word_line(alloc, b"COMMIT", scn, at, live.xid())?;
    out.push(last)
}

fn push_committed(
    alloc: Global,
    out: &mut MinedLines,
    dict: &Dict,
    scn: Scn,
    at: Pos,
    lives: &[Live],
    xid: Xid,
) -> Result<(), NoMemory>
    ensures { OnOk result (out.new ≡ out.old
        ++ flat_map (ended_lines dict.now.tables scn at) (live_of xid lives.now)) }
{
    let mut rest = lives;
    while let [live, others @ ..] = rest {
        if is_of(live, xid) {
            push_ended(alloc, out, dict, scn, at, live)?;
        }
        rest = others;
    }
    Ok(())
}

fn push_commit(
    alloc: Global,
    out: &mut MinedLines,
    dict: &Dict,
    scn: Scn,
    at: Pos,
    vector: &Vector,
    lives: &[Live],
) -> Result<(), NoMemory>
    ensures { OnOk result (out.new ≡ out.old
        ++ commit_given dict.now.tables scn at vector.now lives.now) }
{
    match vector {
        Vector::Commit(xid) => push_committed(alloc, out, dict, scn, at, lives, *xid),
        _ => Ok(()),
    }
}

fn push_some(out: &mut MinedLines, line: Option<Bytes>) -> Result<(), NoMemory>
    ensures { OnOk result (out.new ≡ out.old ++ lines_of line) }
{
    match line {
        Some(line) => out.push(line),
        None => Ok(()),
    }
}

/// Puts the lines that a vector gives at this position in a record of this SCN.
pub(crate) fn push_given(
    alloc: Global,
    out: &mut MinedLines,
    committed: bool,
    dict: &Dict,
    scn: Scn,
    at: Pos,
    vector: &Vector,
    lives: &[Live],
) -> Result<(), NoMemory>
    ensures { OnOk result (out.new ≡ out.old
        ++ vector_given committed dict.now.tables scn at vector.now lives.now) }
{
    if committed {
        push_commit(alloc, out, dict, scn, at, vector, lives)
    } else {
        let line = contents(alloc, scn, at, vector, dict, taken_back(lives, vector))?;
        push_some(out, line)
    }
}
