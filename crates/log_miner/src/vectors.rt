//! The vectors of a record, one by one.
ghost use Rattle.std.specs.Prelude.{◌≡◌, ◌++◌, ◌+◌, ◌≤◌, OnOk, length};
ghost use Rattle.log_miner.specs.Live.{live_after_all, live_after};
ghost use Rattle.log_miner.specs.Mining.{vector_given, given_by};

use crate::ended::push_given;
use crate::live::Live;
use crate::lives::take;
use crate::mined::MinedLines;
use redo_dict::Dict;
use redo_vec::Vector;
use rl_value::{NoMemory, Pos, Scn};
use std::alloc::Global;

fn take_vector(
    alloc: Global,
    out: &mut MinedLines,
    lives: &mut Vec<Live>,
    committed: bool,
    dict: &Dict,
    scn: Scn,
    at: Pos,
    vector: &Vector,
) -> Result<(), NoMemory>
    ensures given { OnOk result (out.new
        ≡ out.old ++ vector_given committed dict.now.tables scn at vector.now lives.old.items) }
    ensures left { OnOk result (lives.new.items ≡ live_after committed scn at vector.now lives.old.items) }
{
    push_given(
        alloc,
        out,
        committed,
        dict,
        scn,
        at,
        vector,
        lives.as_slice(),
    )?;
    take(alloc, lives, committed, scn, at, vector)
}

/// Takes the vectors of a record: puts their lines, and keeps what is lives behind them.
pub(crate) fn take_vectors(
    alloc: Global,
    out: &mut MinedLines,
    lives: &mut Vec<Live>,
    committed: bool,
    dict: &Dict,
    scn: Scn,
    rec: u64,
    vectors: &[Vector],
) -> Result<(), NoMemory>
    requires few { length vectors.now ≤ 255 }
    ensures given { OnOk result (out.new
        ≡ out.old ++ given_by committed dict.now.tables scn rec 1 vectors.now lives.old.items) }
    ensures left { OnOk result (lives.new.items ≡ live_after_all committed scn rec 1 vectors.now lives.old.items) }
{
    let mut before = 0u8;
    let mut rest = vectors;
    while let [vector, others @ ..] = rest {
        let at = Pos {
            rec,
            vec: before + 1,
        };
        take_vector(alloc, out, lives, committed, dict, scn, at, vector)?;
        before += 1;
        rest = others;
    }
    Ok(())
}
