//! What a cut gives, and why it can be refused.
ghost use Rattle.std.specs.Prelude.{◌≡◌, IfOk};

use redo_wire::Raw;
use rl_ports::Failed;
use rl_value::{NoMemory, Stop};

/// What comes next in the redo.
#[derive(Debug, Drop)]
pub enum Cut {
    /// The next record.
    Raw(Raw),
    /// What ends the redo: Drained, a gap, or a record that cannot be cut off.
    End(Stop),
}

impl Cut {
    /// An equal one, which owns memory of its own.
    pub fn copy(&self) -> Result<Cut, NoMemory>
        ensures equal { IfOk result (λ cut. cut ≡ self.now) }
    {
        match self {
            Cut::Raw(raw) => Ok(Cut::Raw(raw.copy()?)),
            Cut::End(stop) => Ok(Cut::End(stop.copy()?)),
        }
    }
}

/// Why a cut was refused. The next call tries the same again.
#[derive(Clone, Copy, Debug, PartialEq, Eq)]
pub enum CutError {
    /// A call of the archive failed.
    ArchiveFault,
    /// There is no memory.
    Memory,
}

impl From<Failed> for CutError {
    ghost use Rattle.std.specs.Prelude.{◌≡◌};
    ghost use Rattle.redo_reader.specs.declared.cut.CutError.TheVariants as errors;

    ghost from_gives = { λ _ e. e ≡ errors.ArchiveFault };

    fn from(_: Failed) -> CutError {
        CutError::ArchiveFault
    }
}

impl From<NoMemory> for CutError {
    ghost use Rattle.std.specs.Prelude.{◌≡◌};
    ghost use Rattle.redo_reader.specs.declared.cut.CutError.TheVariants as errors;

    ghost from_gives = { λ _ e. e ≡ errors.Memory };

    fn from(_: NoMemory) -> CutError {
        CutError::Memory
    }
}
