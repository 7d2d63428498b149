//! The events of a replay: what its one thread does, step by step.
//!
//! An event stands with how often it is done, 1 to 65,536. A list has at most 2^20 events in all, and Drain stands
//! only as its last item, once.

ghost use Rattle.std.specs.Prelude.{◌≡◌, IsTrue, IfOk};
ghost use Rattle.rl_base.specs.Replay.{are_events};

use rl_value::{Name, NoMemory};
use std::marker::Model;

/// What is done.
#[derive(Debug, Drop)]
pub enum Event {
    /// Cuts a record into the prepare window.
    Cut,
    /// Decodes the least raw piece of the window.
    Prepare,
    /// Decodes the greatest raw piece of the window.
    PrepareLast,
    /// Adds the piece that is held, or draws one.
    Build,
    /// Spills cached changes of one transaction.
    Spill,
    /// Takes the first ready transaction and does its work.
    Take,
    /// Posts the oldest outcome.
    Post,
    /// Take, and the post of that job.
    Apply,
    /// Publishes the next commit.
    Install,
    /// Tells the board how many commits are published.
    Tell,
    /// Install, and tell where a commit was published.
    Publish,
    /// Keeps a checkpoint.
    Mark,
    /// The next waiting query of the session of this name.
    Query(Name),
    /// Gives up all but the durable store, and loads it.
    Restart,
    /// Goes on to the end.
    Drain,
}

impl Event {
    /// The same event again. It takes no memory.
    pub fn copy(&self) -> Event
        ensures equal { result ≡ self.now }
    {
        match self {
            Event::Cut => Event::Cut,
            Event::Prepare => Event::Prepare,
            Event::PrepareLast => Event::PrepareLast,
            Event::Build => Event::Build,
            Event::Spill => Event::Spill,
            Event::Take => Event::Take,
            Event::Post => Event::Post,
            Event::Apply => Event::Apply,
            Event::Install => Event::Install,
            Event::Tell => Event::Tell,
            Event::Publish => Event::Publish,
            Event::Mark => Event::Mark,
            Event::Query(session) => Event::Query(session.copy()),
            Event::Restart => Event::Restart,
            Event::Drain => Event::Drain,
        }
    }
}

/// A list of events, each with how often it is done.
#[derive(Debug, Drop)]
pub struct Events9 {
    items: Vec<(Event, u32)>,
}

impl Model for Events9 {
    ghost use Rattle.std.specs.Prelude.{List, ℕ, IsTrue};
    ghost use Rattle.rl_base.specs.declared.replay.Event.{Event};
    ghost use Rattle.rl_base.specs.Replay.{are_events};

    ghost Value = { List (Event × ℕ) };

    ghost view = { λ e. e.items.items };

    ghost invariant = { λ e. IsTrue (are_events e.items.items) };
}

impl Events9 {
    /// The list of these events. It may be empty.
    pub fn of(items: Vec<(Event, u32)>) -> Events9
        requires events { IsTrue (are_events items.items) }
        ensures same { result ≡ items.items }
    {
        Events9 { items }
    }

    /// What it holds, in order.
    pub fn items(&self) -> &[(Event, u32)]
        ensures events { IsTrue (are_events self.now) }
        ensures same { result.now ≡ self.now }
    {
        self.items.as_slice()
    }

    /// Gives up what it holds, in order. It takes no memory.
    pub fn into_items(self) -> Vec<(Event, u32)>
        ensures events { IsTrue (are_events self) }
        ensures same { result.items ≡ self }
    {
        self.items
    }

    /// An equal one, which owns memory of its own.
    pub fn copy(&self) -> Result<Events9, NoMemory>
        ensures equal { IfOk result (λ events. events ≡ self.now) }
    {
        match copied(&self.items) {
            Ok(items) => Ok(Events9 { items }),
            Err(NoMemory) => Err(NoMemory),
        }
    }
}

fn copied(items: &Vec<(Event, u32)>) -> Result<Vec<(Event, u32)>, NoMemory>
    ensures equal { IfOk result (λ copies. copies.items ≡ items.now.items) }
{
    let Ok(mut copies) = Vec::with_capacity(*items.allocator(), items.len()) else {
        return Err(NoMemory);
    };
    for item in items {
        if copies.push((item.0.copy(), item.1)).is_err() {
            return Err(NoMemory);
        }
    }
    Ok(copies)
}
