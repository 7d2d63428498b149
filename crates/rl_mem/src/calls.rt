//! Counts the calls of a device and says which fail.

ghost use Rattle.std.specs.Prelude.{◌≡◌, ◌<◌, ◌^◌, if◌then◌else◌, ◌==◌};
ghost use Rattle.std.specs.List.{list_any};
ghost use Rattle.rl_mem.specs.Calls.{before_calls, fails_next, after_call, after_fault, passed, one_more};

use std::marker::Model;

/// The numbers of the calls that are to fail, counted from 1, and what was counted so far.
#[derive(Debug, Drop)]
pub struct Calls {
    fails: Vec<u64>,
    made: u64,
    faults: u64,
}

impl Model for Calls {
    ghost use Rattle.rl_mem.specs.Calls.{Counted};

    ghost Value = { Counted };

    ghost view = { λ c. record { fails = c.fails.items; made = c.made; faults = c.faults } };
}

impl Calls {
    pub fn of(fails: Vec<u64>) -> Calls
        ensures { result ≡ before_calls fails.items }
    {
        Calls {
            fails,
            made: 0,
            faults: 0,
        }
    }

    /// Counts a call, and says whether it is to fail.
    pub fn next(&mut self) -> bool
        ensures fails { result ≡ fails_next self.old }
        ensures counted { self.new ≡ after_call self.old }
        ensures within { self.old.faults < 2 ^ 64 }
    {
        let number = self.made.saturating_add(1);
        let fails = names(&self.fails, number);
        self.made = number;
        self.faults = counted(self.faults, fails);
        fails
    }

    /// Whether the next call is to fail.
    pub fn fails_next(&self) -> bool
        ensures { result ≡ fails_next self.now }
    {
        names(&self.fails, self.made.saturating_add(1))
    }

    /// Counts a call that is not to fail, whatever its number is.
    pub fn pass(&mut self)
        ensures counted { self.new ≡ passed self.old }
    {
        self.made = self.made.saturating_add(1);
    }

    /// Counts a failure of the call that was counted last.
    pub fn fault(&mut self)
        ensures counted { self.new ≡ after_fault self.old }
        ensures within { self.old.faults < 2 ^ 64 }
    {
        self.faults = self.faults.saturating_add(1);
    }
}

fn counted(faults: u64, fails: bool) -> u64
    ensures { result ≡ (if fails then one_more faults else faults) }
{
    if fails {
        return faults.saturating_add(1);
    }
    faults
}

fn names(calls: &[u64], number: u64) -> bool
    ensures { result ≡ list_any (λ n. n == number) calls.now }
{
    calls.iter().any(|call| *call == number)
}
