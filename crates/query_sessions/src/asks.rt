//! Queries that wait for a run, each with its answer once there is one.
//!
//! A query is due once the tables have come to its SCN, or the run has ended; it is answered once. The list stands in the order
//! of the statements, and its lines are printed in that order whatever the order of the answers.
ghost use Rattle.std.specs.Prelude.{◌≡◌, IfOk};
ghost use Rattle.query_sessions.specs.Asks.{given_by, with_answer, with_answers, is_due};

use crate::answer::Answer;
use crate::asking::ask;
use crate::limits::MAX_ROWS_DURING;
use crate::query::Query;
use rl_value::{Name, NoMemory, Scn};
use std::alloc::Global;
use std::marker::Model;
use table_store::View;

/// A query that waits for a run.
#[derive(Debug, Drop)]
pub struct Ask {
    /// The line of its statement, from 1.
    pub line: u32,
    /// The name of its session.
    pub session: Name,
    /// The session's floor as the run begins.
    pub floor: u64,
    /// From which SCN of the tables on it is due.
    pub scn: Scn,
    pub query: Query,
    /// The answer, with the SCN and the commit count of the tables that gave it.
    pub answer: Option<(Scn, u64, Answer)>,
}

fn copied_answer(
    answer: &Option<(Scn, u64, Answer)>,
) -> Result<Option<(Scn, u64, Answer)>, NoMemory>
    ensures { IfOk result (λ copy. copy ≡ answer.now) }
{
    match answer {
        None => Ok(None),
        Some(given) => {
            let copy = given.2.copy()?;
            Ok(Some((given.0, given.1, copy)))
        }
    }
}

// The answer that the query has, or else the one of the view.
fn given_by(
    alloc: Global,
    view: &View,
    query: &Query,
    answer: Option<(Scn, u64, Answer)>,
) -> Result<Option<(Scn, u64, Answer)>, NoMemory>
    ensures { IfOk result (λ given. given ≡ given_by view.now query.now answer) }
{
    match answer {
        Some(given) => Ok(Some(given)),
        None => {
            let found = ask(alloc, view, query, MAX_ROWS_DURING)?;
            Ok(Some((view.scn, view.n, found)))
        }
    }
}

impl Ask {
    /// Whether the query is due at tables of this SCN. It takes no memory.
    pub fn is_due(&self, scn: Scn) -> bool
        ensures exact { result ≡ is_due self.now scn }
    {
        self.scn <= scn
    }

    /// The query with the answer that it has, or else with the one of the view. It is answered as it is asked, due or not: at
    /// the end of a run each query is. After want of memory it is lost.
    pub fn with_answer(self, alloc: Global, view: &View) -> Result<Ask, NoMemory>
        ensures answered { IfOk result (λ ask. ask ≡ with_answer view.now self) }
    {
        let Ask {
            line,
            session,
            floor,
            scn,
            query,
            answer,
        } = self;
        let answer = given_by(alloc, view, &query, answer)?;
        Ok(Ask {
            line,
            session,
            floor,
            scn,
            query,
            answer,
        })
    }

    /// An equal one, which owns memory of its own.
    pub fn copy(&self) -> Result<Ask, NoMemory>
        ensures equal { IfOk result (λ ask. ask ≡ self.now) }
    {
        let query = self.query.copy()?;
        let answer = copied_answer(&self.answer)?;
        Ok(Ask {
            line: self.line,
            session: self.session.copy(),
            floor: self.floor,
            scn: self.scn,
            query,
            answer,
        })
    }
}

/// The queries that wait for a run, in the order of their statements.
#[derive(Debug, Drop)]
pub struct Asks {
    asks: Vec<Ask>,
}

impl Model for Asks {
    ghost use Rattle.std.specs.Prelude.{List};
    ghost use Rattle.query_sessions.specs.declared.asks.Ask.{Ask};

    ghost Value = { List Ask };

    ghost view = { λ a. a.asks.items };
}

impl Asks {
    /// The list of these queries. It may be empty.
    pub fn of(asks: Vec<Ask>) -> Asks
        ensures same { result ≡ asks.items }
    {
        Asks { asks }
    }

    /// What it holds, in order.
    pub fn items(&self) -> &[Ask]
        ensures same { result.now ≡ self.now }
    {
        self.asks.as_slice()
    }

    /// Gives up what it holds, in order. It takes no memory.
    pub fn into_items(self) -> Vec<Ask>
        ensures same { result.items ≡ self }
    {
        self.asks
    }

    /// The queries, each with the answer that it has, or else with the one of the view: what is open when a run ends is answered
    /// so. After want of memory they are lost.
    pub fn with_answers(self, alloc: Global, view: &View) -> Result<Asks, NoMemory>
        ensures answered { IfOk result (λ asks. asks ≡ with_answers view.now self) }
    {
        match with_answers(alloc, view, self.asks) {
            Ok(asks) => Ok(Asks { asks }),
            Err(NoMemory) => Err(NoMemory),
        }
    }

    /// An equal one, which owns memory of its own.
    pub fn copy(&self) -> Result<Asks, NoMemory>
        ensures equal { IfOk result (λ asks. asks ≡ self.now) }
    {
        match copied(&self.asks) {
            Ok(asks) => Ok(Asks { asks }),
            Err(NoMemory) => Err(NoMemory),
        }
    }
}

fn with_answers(alloc: Global, view: &View, asks: Vec<Ask>) -> Result<Vec<Ask>, NoMemory>
    ensures { IfOk result (λ done. done.items ≡ with_answers view.now asks.items) }
{
    let Ok(mut done) = Vec::with_capacity(alloc, asks.len()) else {
        return Err(NoMemory);
    };
    for waiting in asks {
        let after = waiting.with_answer(alloc, view)?;
        if done.push(after).is_err() {
            return Err(NoMemory);
        }
    }
    Ok(done)
}

fn copied(asks: &Vec<Ask>) -> Result<Vec<Ask>, NoMemory>
    ensures equal { IfOk result (λ copies. copies.items ≡ asks.now.items) }
{
    let Ok(mut copies) = Vec::with_capacity(*asks.allocator(), asks.len()) else {
        return Err(NoMemory);
    };
    for waiting in asks {
        if copies.push(waiting.copy()?).is_err() {
            return Err(NoMemory);
        }
    }
    Ok(copies)
}
