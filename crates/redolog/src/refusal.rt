//! Why a command did not end as asked: by what it was given, or by what keeps it from the end of that.
ghost use Rattle.std.specs.Prelude.{◌≡◌};
ghost use Rattle.redolog.specs.declared.refusal.Refusal.TheVariants as refusals;
ghost use Rattle.redolog.specs.declared.refusal.StreamFault.TheVariants as streams;

use redo_text::LineFault;
use rl_value::NoMemory;

/// What keeps a command from the end of its input or output, whatever these say.
#[derive(Clone, Copy, Debug, PartialEq, Eq)]
pub enum StreamFault {
    /// The standard input cannot be read.
    Input,
    /// The standard output cannot be written.
    Output,
    /// There is no memory.
    Memory,
}

impl From<NoMemory> for StreamFault {
    ghost from_gives = { λ _ e. e ≡ streams.Memory };

    fn from(_e: NoMemory) -> StreamFault {
        StreamFault::Memory
    }
}

/// Why a command did not end as asked.
#[derive(Clone, Copy, Debug, PartialEq, Eq)]
pub enum Refusal {
    /// The words are no command.
    Usage,
    /// The text's first bad line, from 1, and why it is bad.
    Line { line: u64, fault: LineFault },
    /// The text has more bytes than are taken.
    Long,
    /// The log has a fault; its last line says so.
    Damaged,
    /// A device failed, or there is no memory.
    Stream(StreamFault),
}

impl From<StreamFault> for Refusal {
    ghost from_gives = { λ fault e. e ≡ refusals.Stream fault };

    fn from(fault: StreamFault) -> Refusal {
        Refusal::Stream(fault)
    }
}
