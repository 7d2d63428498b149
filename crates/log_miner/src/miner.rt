//! A miner: takes the pieces of a redo in order, and gives the lines of its contents.
ghost use Rattle.std.specs.Prelude.{◌≡◌, ◌+◌, IfOk, IfErr, OnOk, Some};
ghost use Rattle.redo_spec.specs.Law.{record_fault};
ghost use Rattle.log_miner.specs.Mining.{unbegun, dictionary_so_far, given_from, refused_standing};
ghost use Rattle.log_miner.specs.Stages.{standing_in, commits_before, with_going};
ghost use Rattle.log_miner.specs.Calls.{IsNext, OnLines, records_taken, piece_given, piece_left, given_unless, left_unless, last_commit};

use crate::going::{Going, Stage, count_commits, found, scn_after_all};
use crate::live::Live;
use crate::mined::{Mined, MinedLines};
use crate::vectors::take_vectors;
use preparers::{Made, Piece};
use redo_dict::Dict;
use redo_law::AdmitFault;
use redo_spec::Header;
use redo_vec::RedoRec;
use rl_value::{Cause, NoMemory, Scn};
use std::alloc::Global;
use std::marker::Model;
use std::mem;

/// The contents of a redo, record by record: in plain mode a line for each vector, in committed mode the lines of committed
/// transactions alone.
#[derive(Drop)]
pub struct Miner {
    alloc: Global,
    committed: bool,
    live: Vec<Live>,
    stage: Stage,
    /// The dictionary before the first record.
    empty: Dict,
}

impl Model for Miner {
    ghost use Rattle.std.specs.Prelude.{◌≡◌};
    ghost use Rattle.redo_spec.specs.Dictionary.{no_dictionary};
    ghost use Rattle.log_miner.specs.Mining.{Mining};

    ghost Value = { Mining };

    ghost use Rattle.log_miner.specs.Stages.{standing_in, commits_before, with_going};

    ghost view = { λ m. record {
      committed = m.committed;
      standing = standing_in m.stage;
      live = m.live.items;
      commits = commits_before m.stage;
    } };

    ghost invariant = { λ m. m.empty ≡ no_dictionary };
}

impl Miner {
    /// Before the first record. It takes no memory yet.
    pub fn new(alloc: Global, committed: bool) -> Miner
        ensures begun { result ≡ unbegun committed }
    {
        Miner {
            alloc,
            committed,
            live: Vec::new(alloc),
            stage: Stage::Unbegun,
            empty: Dict::new(alloc),
        }
    }

    /// Takes the next piece. Behind a refusal the dictionary and the last commit are known, and no piece is the next. Where
    /// memory is refused, the piece comes back, and nothing is known of the miner.
    pub fn add(&mut self, piece: Piece) -> Result<Mined, (NoMemory, Piece)>
        requires order { IsNext piece self.old }
        ensures given { IfOk result (λ given. given ≡ piece_given piece self.old) }
        ensures left { OnOk result (self.new ≡ piece_left piece self.old) }
        ensures counted { OnLines result (records_taken self.new ≡ piece.rec) }
        ensures back { IfErr result (λ refused. refused.1 ≡ piece) }
    {
        match self.take(&piece) {
            Ok(mined) => Ok(mined),
            Err(NoMemory) => Err((NoMemory, piece)),
        }
    }

    /// The dictionary that the records so far leave. It takes no memory.
    pub fn dict(&self) -> &Dict
        ensures same { result.now ≡ dictionary_so_far self.now }
    {
        match &self.stage {
            Stage::Unbegun => &self.empty,
            Stage::Going(going) => going.law.dict(),
            Stage::Refused { dict, .. } => dict,
        }
    }

    /// How many commits there were, and the SCN of the last one, or that before the first record. None before the first piece.
    pub fn last_commit(&self) -> Option<(u64, Scn)>
        ensures value { result ≡ last_commit self.now }
    {
        match &self.stage {
            Stage::Unbegun => None,
            Stage::Going(going) => Some((going.commits, going.commit_scn)),
            Stage::Refused {
                commits,
                commit_scn,
                ..
            } => Some((*commits, *commit_scn)),
        }
    }

    fn take(&mut self, piece: &Piece) -> Result<Mined, NoMemory>
        requires order { IsNext piece.now self.old }
        ensures given { IfOk result (λ given. given ≡ piece_given piece.now self.old) }
        ensures left { OnOk result (self.new ≡ piece_left piece.now self.old) }
        ensures counted { OnLines result (records_taken self.new ≡ piece.now.rec) }
    {
        let stage = mem::replace(&mut self.stage, Stage::Unbegun);
        let going = found(self.alloc, stage, &piece.head)?;
        match &piece.made {
            Made::Bad { fault, place } => {
                let cause = Cause::Vector {
                    fault: *fault,
                    place: *place,
                };
                self.stage = refused(going);
                Ok(Mined::Malformed {
                    rec: piece.rec,
                    cause,
                })
            }
            Made::Rec(rec) => self.take_record(going, piece.rec, &piece.head, rec),
        }
    }

    fn take_record(
        &mut self,
        going: Going,
        number: u64,
        head: &Header,
        rec: &RedoRec,
    ) -> Result<Mined, NoMemory>
        requires next { number ≡ going.standing.rec + 1 }
        ensures given { IfOk result (λ given. given ≡ given_unless (record_fault going.standing (head.now, rec.now)) number
            (given_from going.standing (head.now, rec.now) self.old)) }
        ensures left { OnOk result (self.new ≡ left_unless (record_fault going.standing (head.now, rec.now)) going.standing
            (head.now, rec.now) (with_going going self.old)) }
        ensures counted { OnLines result (records_taken self.new ≡ number) }
    {
        let Going {
            mut law,
            commits,
            commit_scn,
        } = going;
        match law.admit(head, rec) {
            Err(AdmitFault::Memory) => Err(NoMemory),
            Err(AdmitFault::Law(fault)) => {
                self.stage = Stage::Refused {
                    dict: law.into_dict(),
                    commits,
                    commit_scn,
                };
                let cause = Cause::Law(fault);
                Ok(Mined::Malformed { rec: number, cause })
            }
            Ok(()) => {
                let vectors = rec.vectors.items();
                let mut lines = MinedLines::new(self.alloc);
                take_vectors(
                    self.alloc,
                    &mut lines,
                    &mut self.live,
                    self.committed,
                    law.dict(),
                    rec.scn,
                    number,
                    vectors,
                )?;
                let behind = Going {
                    law,
                    commits: commits + count_commits(vectors),
                    commit_scn: scn_after_all(commit_scn, rec.scn, vectors),
                };
                self.stage = Stage::Going(behind);
                Ok(Mined::Lines(lines))
            }
        }
    }
}

fn refused(going: Going) -> Stage
    ensures standing { standing_in result ≡ Some (refused_standing going.standing.dictionary going.standing.commit_scn) }
    ensures commits { commits_before result ≡ going.commits }
{
    let Going {
        law,
        commits,
        commit_scn,
    } = going;
    Stage::Refused {
        dict: law.into_dict(),
        commits,
        commit_scn,
    }
}
