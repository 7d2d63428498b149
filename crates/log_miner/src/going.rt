//! How far a miner has come.
ghost use Rattle.std.specs.Prelude.{◌≡◌, ◌-◌, ◌+◌, ◌≤◌, IfOk, length};
ghost use Rattle.redo_spec.specs.Standing.{beginning, commit_scn_after};
ghost use Rattle.log_miner.specs.Mining.{standing_or, commits_of, commits_in};
ghost use Rattle.log_miner.specs.Stages.{standing_in, commits_before, commit_scn_after_all};

use redo_dict::Dict;
use redo_law::{Law, LawStart};
use redo_spec::Header;
use redo_vec::Vector;
use rl_value::{NoMemory, Scn};
use std::alloc::Global;
use std::marker::Model;

/// A miner that goes on.
#[derive(Drop)]
pub(crate) struct Going {
    pub(crate) law: Law,
    pub(crate) commits: u64,
    pub(crate) commit_scn: Scn,
}

impl Model for Going {
    ghost use Rattle.std.specs.Prelude.{◌≡◌, ◌≤◌};
    ghost use Rattle.log_miner.specs.Goes.{Goes};

    ghost Value = { Goes };

    ghost view = { λ g. record { standing = g.law; commits = g.commits } };

    // A COMMIT stands alone in its record.
    ghost invariant = { λ g. (g.commits ≤ g.law.rec) × (g.law.commit_scn ≡ g.commit_scn) };
}

/// Before the first record, between two records, or behind one that was refused.
#[derive(Drop)]
pub(crate) enum Stage {
    Unbegun,
    Going(Going),
    Refused {
        dict: Dict,
        commits: u64,
        commit_scn: Scn,
    },
}

fn begin(alloc: Global, head: &Header) -> Result<Going, NoMemory>
    ensures standing { IfOk result (λ g. g.standing ≡ beginning head.now.seq (head.now.first - 1)) }
    ensures commits { IfOk result (λ g. g.commits ≡ 0) }
{
    let base = head.first.saturating_sub(1);
    let start = LawStart {
        first: head.seq,
        base,
        dict: Dict::new(alloc),
        head: None,
        rec: 0,
        known: 0,
        scn: base,
        commit_scn: base,
    };
    match Law::new(alloc, start) {
        Ok(law) => Ok(Going {
            law,
            commits: 0,
            commit_scn: base,
        }),
        Err(_) => Err(NoMemory),
    }
}

/// The miner that a record of a log of this header finds; a refused one goes no further.
pub(crate) fn found(alloc: Global, stage: Stage, head: &Header) -> Result<Going, NoMemory>
    ensures standing { IfOk result (λ g. g.standing ≡ standing_or (standing_in stage) head.now) }
    ensures commits { IfOk result (λ g. g.commits ≡ commits_before stage) }
{
    match stage {
        Stage::Unbegun => begin(alloc, head),
        Stage::Going(going) => Ok(going),
        Stage::Refused { .. } => Err(NoMemory),
    }
}

fn commits_of(vector: &Vector) -> u64
    ensures { result ≡ commits_of vector.now }
{
    match vector {
        Vector::Commit(_) => 1,
        _ => 0,
    }
}

pub(crate) fn count_commits(vectors: &[Vector]) -> u64
    requires few { length vectors.now ≤ 255 }
    ensures { result ≡ commits_in vectors.now }
{
    let mut count = 0u64;
    let mut rest = vectors;
    while let [vector, others @ ..] = rest {
        count += commits_of(vector);
        rest = others;
    }
    count
}

fn scn_after(last: Scn, scn: Scn, vector: &Vector) -> Scn
    ensures { result ≡ commit_scn_after last scn vector.now }
{
    match vector {
        Vector::Commit(_) => scn,
        _ => last,
    }
}

/// The SCN of the last commit after these vectors of a record of this SCN.
pub(crate) fn scn_after_all(last: Scn, scn: Scn, vectors: &[Vector]) -> Scn
    ensures { result ≡ commit_scn_after_all last scn vectors.now }
{
    let mut last = last;
    let mut rest = vectors;
    while let [vector, others @ ..] = rest {
        last = scn_after(last, scn, vector);
        rest = others;
    }
    last
}
