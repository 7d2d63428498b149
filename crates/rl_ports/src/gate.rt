//! Sync points, at which a test may hold up a run.
//!
//! A gate is told of a point and may wait there; it has no part in what the run answers. The program's own gate
//! lets everything pass.

ghost use Rattle.std.specs.Prelude.{◌<◌};

use std::sync::Wait;

/// Where a run asks its gate, and with which number.
#[derive(Clone, Copy, Debug, PartialEq, Eq)]
pub enum Point {
    /// Before the record of this number is cut, under the reading lock.
    Cut,
    /// Before the record of this number is decoded, outside the locks.
    Prepare,
    /// After the record of this number was built, once the lock is free.
    Build,
    /// After the job of this number was taken, once the lock is free.
    Take,
    /// After the job of this number was posted, once the lock is free.
    Post,
    /// After the commit of this number was published, once the lock is free.
    Install,
    /// Before a session looks, with the line of its statement.
    Ask,
}

/// A gate.
pub trait Gate {
    /// Waits as long as the gate pleases. It takes no memory, and may never return.
    fn at<W: Wait>(&self, rt: &W, point: Point, number: u64);
}

/// The gate that holds up nothing.
#[derive(Clone, Copy, Debug)]
pub struct FreeGate;

impl Gate for FreeGate {
    fn at<W: Wait>(&self, rt: &W, point: Point, number: u64) {}
}
