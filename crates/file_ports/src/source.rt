//! The standard input as a source.
//!
//! It tells nothing of what is left.
ghost use Rattle.std.specs.Prelude.{◌≡◌, None, true, IfOk};

use rl_ports::{Failed, Source};
use rl_value::NoMemory;
use std::io::{Input, Read};

/// The standard input.
#[derive(Drop)]
pub struct StdSource<'r, R> {
    rt: &'r R,
    faults: u64,
}

impl<'r, R: Input> StdSource<'r, R> {
    /// Opens nothing yet.
    pub fn new(rt: &'r R) -> Result<StdSource<'r, R>, NoMemory>
        ensures unfailed { IfOk result (λ device. ⟦<StdSource<'r, R> as Source>⟧.faults device ≡ 0) }
    {
        Ok(StdSource { rt, faults: 0 })
    }
}

impl<R: Input> Source for StdSource<'_, R> {
    ghost left = { λ _. None };

    ghost counts_failures_alone = { true };

    ghost faults = { λ source. source.faults };

    fn read(&mut self, into: &mut [u8]) -> Result<usize, Failed> {
        match self.rt.reader().read(into) {
            Ok(count) => Ok(count),
            Err(_) => {
                self.faults = self.faults.saturating_add(1);
                Err(Failed)
            }
        }
    }
}
