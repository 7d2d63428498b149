//! How a device refuses a call.
//!
//! Each device has a count of its faults, `faults`, that never falls. A call answers `Failed` only where the count
//! rose in this call, and a count at its type's end counts as risen (`Rose` in specs/Faults.antt). So code that is
//! given a device can say that it failed only where it did: it has no means to raise the count, and a call that is within
//! its conditions fails for no reason that the caller makes. Nor can it pass a failure over where the device's type counts
//! failures alone (`counts_failures_alone`): where no failure is answered, the count is as it was.

use thiserror::Error;

/// The device failed.
#[derive(Clone, Copy, Debug, PartialEq, Eq, Error)]
#[error("failed")]
pub struct Failed;

/// Why a call that also makes something in memory is refused.
#[derive(Clone, Copy, Debug, PartialEq, Eq)]
pub enum PortFault {
    /// The device failed.
    Failed,
    /// There is no memory. The device was not changed.
    Memory,
}
