//! The standard output as a sink.
//!
//! It is not buffered: a write that is answered has left the program. It tells nothing of what was written.
ghost use Rattle.std.specs.Prelude.{◌≡◌, None, true, IfOk};

use rl_ports::{Failed, Sink};
use rl_value::NoMemory;
use std::io;
use std::io::{Print, Write};

/// The standard output.
#[derive(Drop)]
pub struct StdSink<'r, R> {
    rt: &'r R,
    faults: u64,
}

impl<'r, R: Print> StdSink<'r, R> {
    /// Opens nothing yet.
    pub fn new(rt: &'r R) -> Result<StdSink<'r, R>, NoMemory>
        ensures unfailed { IfOk result (λ device. ⟦<StdSink<'r, R> as Sink>⟧.faults device ≡ 0) }
    {
        Ok(StdSink { rt, faults: 0 })
    }
}

impl<R: Print> Sink for StdSink<'_, R> {
    ghost written = { λ _. None };

    ghost counts_failures_alone = { true };

    ghost faults = { λ sink. sink.faults };

    fn write(&mut self, from: &[u8]) -> Result<usize, Failed> {
        match io::writer(self.rt).write(from) {
            Ok(count) if count > 0 || from.is_empty() => Ok(count),
            // A write that takes nothing is a failure too, and so would be the next ones.
            _ => {
                self.faults = self.faults.saturating_add(1);
                Err(Failed)
            }
        }
    }
}
