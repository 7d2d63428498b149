//! Why a record of the redo is malformed, in four stages: the log's header, the cut of its bytes into records,
//! the decoding of a record, and what may follow the records before it.
//!
//! Within a stage the first fault in the order of its tests is told. The tests stand in header_fault, first_record, record_at
//! and record_fault of redo_vec and redo_spec, a stage each. The variants stand in the order in which they are tested; those
//! of VecFault do not, since a record is tested field by field. A variant that is tested twice stands at its first test.

ghost use Rattle.std.specs.Prelude.{◌≡◌, ◌<◌, IfOk};

use crate::key::Key;
use crate::memory::NoMemory;
use crate::xid::Xid;

/// Why a log's first 40 bytes are not the header of the log that is asked for.
#[derive(Clone, Copy, Debug, PartialEq, Eq)]
pub enum HeadFault {
    /// The log has fewer bytes than a header.
    Short,
    /// It does not begin with the format's four letters.
    Magic,
    /// The format's version is another one.
    Version,
    /// The redo thread's number is another one.
    Thread,
    /// The log sequence number is not the one that is asked for.
    Sequence,
    /// The first SCN is not below the next log's first SCN, or is 0.
    Range,
    /// The count of records is 0.
    Records,
    /// A byte that is kept for later use is not 0.
    Reserved,
    /// The database id is another one. It is told last, and only where the database is known.
    Dbid,
}

/// Why bytes behind the header are not cut into records.
#[derive(Clone, Copy, Debug, PartialEq, Eq)]
pub enum CutFault {
    /// The log ends inside a record, or before the last one. It is tested for the record's length, and again, behind `Length`,
    /// for the whole record.
    Truncated,
    /// The record's length is outside its limits.
    Length,
    /// The record's count of vectors is not 1 to 255.
    Count,
    /// Bytes follow the log's last record.
    Trailing,
}

/// Why a record's bytes are not decoded. The first in the order of its bytes is told, with its place.
#[derive(Clone, Copy, Debug, PartialEq, Eq)]
pub enum VecFault {
    /// No vector has this kind.
    Kind,
    /// A value's tag, a column's type or its nullable byte is none.
    Tag,
    /// A count is outside its limits, or a column does not rise or is over 31.
    Cells,
    /// A text is not UTF-8.
    Utf8,
    /// A text or a raw value has no byte.
    Empty,
    /// A text or a raw value is too long, a name is too long or has no byte, or a column's size is outside its limits.
    Size,
    /// A field runs past the record, or bytes are left behind its last vector.
    End,
}

/// Why a decoded record may not follow those before it. `Chain`, `Scn` and `Alone` are of the record as a whole, and
/// `Dictionary` of where a vector stands. The others are of one kind of vector: TABLE up to `Limit`, START `OpenTwice`, a change,
/// UNDO, COMMIT and ROLLBACK `NotOpen`, a change from `NoTable` to `OpenLimit`, UNDO `Nothing`. A COMMIT has `Scn` again, behind
/// `NotOpen`.
#[derive(Debug, Drop)]
pub enum LawFault {
    /// The log does not begin at the SCN at which the one before it ends.
    Chain,
    /// The record's SCN falls, or leaves its log's range; or a COMMIT's is not above that of the commit before.
    Scn,
    /// A vector that has to stand alone in its record does not.
    Alone,
    /// The dictionary is not complete where it has to be, or is again begun.
    Dictionary,
    /// A table's id or its name is there already.
    Twice,
    /// A table's or a column's name is no name, or a column's name comes twice.
    Names,
    /// A key's columns are none of the table's, a primary key's may be Null, or two keys are equal.
    Keys,
    /// There are too many tables, or a row or a key is too wide.
    Limit,
    /// A START names an open transaction.
    OpenTwice,
    /// No open transaction has this id.
    NotOpen,
    /// A change names no table of the dictionary.
    NoTable,
    /// A change has a column that its table does not have, or not the cells that its kind wants.
    Columns,
    /// A cell's value does not fit its column.
    Types,
    /// The old cells of an UPDATE are not exactly those that it has to log.
    Supplement,
    /// A change touches a key that another open transaction holds by a surviving change: the least such key, and its holder.
    Lock { key: Key, holder: Xid },
    /// The open transactions have too many surviving changes.
    OpenLimit,
    /// An UNDO finds no change to take back.
    Nothing,
}

/// Why a record of the redo is malformed.
#[derive(Debug, Drop)]
pub enum Cause {
    /// The header of the record's log is refused.
    Head(HeadFault),
    /// No record is cut off there.
    Cut(CutFault),
    /// The record's bytes are not decoded. The place is the offset in the record, in bytes, of the refused field. Of a field
    /// that is not whole it is the record's length.
    Vector { fault: VecFault, place: u32 },
    /// The record may not follow those before it.
    Law(LawFault),
}

impl LawFault {
    /// An equal one, which owns memory of its own.
    pub fn copy(&self) -> Result<LawFault, NoMemory>
        ensures equal { IfOk result (λ fault. fault ≡ self.now) }
    {
        match self {
            LawFault::Chain => Ok(LawFault::Chain),
            LawFault::Scn => Ok(LawFault::Scn),
            LawFault::Alone => Ok(LawFault::Alone),
            LawFault::Dictionary => Ok(LawFault::Dictionary),
            LawFault::Twice => Ok(LawFault::Twice),
            LawFault::Names => Ok(LawFault::Names),
            LawFault::Keys => Ok(LawFault::Keys),
            LawFault::Limit => Ok(LawFault::Limit),
            LawFault::OpenTwice => Ok(LawFault::OpenTwice),
            LawFault::NotOpen => Ok(LawFault::NotOpen),
            LawFault::NoTable => Ok(LawFault::NoTable),
            LawFault::Columns => Ok(LawFault::Columns),
            LawFault::Types => Ok(LawFault::Types),
            LawFault::Supplement => Ok(LawFault::Supplement),
            LawFault::Lock { key, holder } => {
                let key = key.copy()?;
                Ok(LawFault::Lock {
                    key,
                    holder: *holder,
                })
            }
            LawFault::OpenLimit => Ok(LawFault::OpenLimit),
            LawFault::Nothing => Ok(LawFault::Nothing),
        }
    }
}

impl Cause {
    /// An equal one, which owns memory of its own.
    pub fn copy(&self) -> Result<Cause, NoMemory>
        ensures equal { IfOk result (λ cause. cause ≡ self.now) }
    {
        match self {
            Cause::Head(fault) => Ok(Cause::Head(*fault)),
            Cause::Cut(fault) => Ok(Cause::Cut(*fault)),
            Cause::Vector { fault, place } => Ok(Cause::Vector {
                fault: *fault,
                place: *place,
            }),
            Cause::Law(fault) => Ok(Cause::Law(fault.copy()?)),
        }
    }
}
