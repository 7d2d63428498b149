//! The words of a log's faults, one word each: of its header, of cutting and of decoding.
//!
//! Which fault has which word: docs/FORMATS.md, "What makes a record bad"; in the definitions redo_spec/specs/Lines.antt.
ghost use Rattle.std.specs.Prelude.{◌≡◌};
ghost use Rattle.redo_spec.specs.Lines as lines;

use rl_value::{CutFault, HeadFault, VecFault};

/// The word of a fault of a log's header.
pub fn head_word(fault: HeadFault) -> &'static [u8]
    ensures exact { result.now ≡ lines.head_word fault }
{
    match fault {
        HeadFault::Short => b"SHORT",
        HeadFault::Magic => b"MAGIC",
        HeadFault::Version => b"VERSION",
        HeadFault::Thread => b"THREAD",
        HeadFault::Sequence => b"SEQUENCE",
        HeadFault::Range => b"RANGE",
        HeadFault::Records => b"RECORDS",
        HeadFault::Reserved => b"RESERVED",
        HeadFault::Dbid => b"DBID",
    }
}

/// The word of a fault of cutting.
pub fn cut_word(fault: CutFault) -> &'static [u8]
    ensures exact { result.now ≡ lines.cut_word fault }
{
    match fault {
        CutFault::Length => b"LENGTH",
        CutFault::Count => b"COUNT",
        CutFault::Truncated => b"TRUNCATED",
        CutFault::Trailing => b"TRAILING",
    }
}

/// The word of a fault of decoding.
pub fn vector_word(fault: VecFault) -> &'static [u8]
    ensures exact { result.now ≡ lines.vec_word fault }
{
    match fault {
        VecFault::Kind => b"KIND",
        VecFault::Tag => b"TAG",
        VecFault::Cells => b"CELLS",
        VecFault::Utf8 => b"UTF8",
        VecFault::Empty => b"EMPTY",
        VecFault::Size => b"SIZE",
        VecFault::End => b"END",
    }
}
