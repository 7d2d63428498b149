//! Why a change has no effect on the rows that it finds: an apply conflict.
//!
//! The redo was fine, but the rows of the standby are not those that the primary had.
//! A run ends with the first one.

ghost use Rattle.std.specs.Prelude.{◌≡◌, ◌<◌, IfOk};

use crate::key::Key;
use crate::memory::NoMemory;
use crate::value::Value;

/// What keeps a change from being applied.
#[derive(Debug, Drop)]
pub enum Miss {
    /// An update or a delete finds no row with this primary key.
    Absent(Key),
    /// The row that an update or a delete finds has another value than the old cell says; the least such column.
    Differs {
        column: u8,
        logged: Value,
        found: Value,
    },
    /// An insert, or an update that changes the primary key, finds a row with this primary key.
    Exists(Key),
    /// A value of the unique key `index` is held by another row, whose primary key is `owner`; the least such index.
    Taken {
        index: u8,
        owner: Key,
    },
}

impl Miss {
    /// An equal one, which owns memory of its own.
    pub fn copy(&self) -> Result<Miss, NoMemory>
        ensures equal { IfOk result (λ miss. miss ≡ self.now) }
    {
        match self {
            Miss::Absent(key) => Ok(Miss::Absent(key.copy()?)),
            Miss::Differs {
                column,
                logged,
                found,
            } => {
                let logged = logged.copy()?;
                let found = found.copy()?;
                Ok(Miss::Differs {
                    column: *column,
                    logged,
                    found,
                })
            }
            Miss::Exists(key) => Ok(Miss::Exists(key.copy()?)),
            Miss::Taken { index, owner } => {
                let owner = owner.copy()?;
                Ok(Miss::Taken {
                    index: *index,
                    owner,
                })
            }
        }
    }
}
