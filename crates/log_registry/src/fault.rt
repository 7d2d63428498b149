//! Why a log is not accepted.
use rl_ports::Failed;
use rl_value::HeadFault;

/// Why a log is not accepted. A fault of the archive goes before what its call would have shown; else the variants
/// stand in the order of the tests.
#[derive(Clone, Copy, Debug, PartialEq, Eq)]
pub enum RegFault {
    /// The archive has no log of this sequence.
    NoLog,
    /// The first fault of the log's header. `Dbid` is never among them.
    BadHeader(HeadFault),
    /// The log is one of another database.
    WrongDb,
    /// A call of the archive failed.
    ArchiveFault,
}

impl From<Failed> for RegFault {
    ghost use Rattle.std.specs.Prelude.{◌≡◌};
    ghost use Rattle.log_registry.specs.declared.fault.RegFault.TheVariants as faults;

    ghost from_gives = { λ _ e. e ≡ faults.ArchiveFault };

    fn from(_: Failed) -> RegFault {
        RegFault::ArchiveFault
    }
}
