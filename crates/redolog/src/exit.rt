//! The exit codes, those of `sqlapply` for the same causes (specs/Exit.antt).
ghost use Rattle.std.specs.Prelude.{◌≡◌};
ghost use Rattle.redolog.specs.Exit.{code_of_fault, code_of_refusal, code_of};

use crate::refusal::{Refusal, StreamFault};

fn code_of_fault(fault: StreamFault) -> u8
    ensures { result ≡ code_of_fault fault }
{
    match fault {
        StreamFault::Input => 4,
        StreamFault::Output => 5,
        StreamFault::Memory => 15,
    }
}

fn code_of_refusal(refusal: Refusal) -> u8
    ensures { result ≡ code_of_refusal refusal }
{
    match refusal {
        Refusal::Usage => 2,
        Refusal::Damaged => 9,
        Refusal::Line { .. } => 11,
        Refusal::Long => 11,
        Refusal::Stream(fault) => code_of_fault(fault),
    }
}

/// The exit code of a command's end.
pub fn code_of(end: Result<(), Refusal>) -> u8
    ensures exact { result ≡ code_of end }
{
    match end {
        Ok(()) => 0,
        Err(refusal) => code_of_refusal(refusal),
    }
}
