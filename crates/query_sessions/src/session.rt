//! A session of a script, and how far it has seen.
//!
//! A session reads forward: no answer is of tables older than those that gave the one before it (monotonic reads).
ghost use Rattle.std.specs.Prelude.{◌≡◌, ◌≤◌, IsTrue, IfOk, OnOk, OnErr};
ghost use Rattle.query_sessions.specs.Answers.{answer_of};
ghost use Rattle.query_sessions.specs.Sessions.{new_session, may_see, session_after};

use crate::answer::Answer;
use crate::asking::ask;
use crate::query::Query;
use rl_value::{Name, NoMemory};
use std::alloc::Global;
use table_store::View;

/// A session: its name, and the commit count of the tables that gave its last answer, 0 before the first.
#[derive(Debug, Drop)]
pub struct Session {
    pub name: Name,
    pub floor: u64,
}

impl Session {
    /// A session that has seen nothing yet.
    pub fn new(name: Name) -> Session
        ensures fresh { result ≡ new_session name }
    {
        Session { name, floor: 0 }
    }

    /// An equal one. It takes no memory.
    pub fn copy(&self) -> Session
        ensures equal { result ≡ self.now }
    {
        Session {
            name: self.name.copy(),
            floor: self.floor,
        }
    }

    /// Whether the tables of the view are not older than those that gave the session's last answer. It takes no memory.
    pub fn may_see(&self, view: &View) -> bool
        ensures exact { result ≡ may_see self.now view.now.n }
    {
        self.floor <= view.n
    }

    /// Notes that the tables of the view answered the session, as where a query of it waited for a run. It takes no memory.
    pub fn note_view(&mut self, view: &View)
        requires not_older { IsTrue (may_see self.old view.now.n) }
        ensures floor { self.new ≡ session_after view.now.n self.old }
        ensures rises { self.old.floor ≤ self.new.floor }
    {
        self.floor = view.n;
    }

    /// Asks for the session, as `ask` does. With the answer the session has seen the tables of the view.
    pub fn ask(
        &mut self,
        alloc: Global,
        view: &View,
        query: &Query,
        most: u64,
    ) -> Result<Answer, NoMemory>
        requires not_older { IsTrue (may_see self.old view.now.n) }
        ensures exact { IfOk result (λ answer. answer ≡ answer_of view.now.tables.tables query.now most) }
        ensures floor { OnOk result (self.new ≡ session_after view.now.n self.old) }
        ensures unchanged { OnErr result (self.new ≡ self.old) }
        ensures rises { self.old.floor ≤ self.new.floor }
    {
        let answer = ask(alloc, view, query, most)?;
        self.note_view(view);
        Ok(answer)
    }
}
