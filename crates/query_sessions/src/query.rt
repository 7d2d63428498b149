//! What is asked of a table: all its rows, how many it has, or the row of a primary key.
ghost use Rattle.std.specs.Prelude.{◌≡◌, IfOk};

use rl_value::{NoMemory, Row};

/// Which rows of a table are asked for.
#[derive(Debug, Drop)]
pub enum Form {
    /// All rows.
    All,
    /// How many rows there are.
    Count,
    /// The row with this primary key: its values in the key's columns, in their order.
    Key(Row),
}

impl Form {
    /// An equal one, which owns memory of its own.
    pub fn copy(&self) -> Result<Form, NoMemory>
        ensures equal { IfOk result (λ form. form ≡ self.now) }
    {
        match self {
            Form::All => Ok(Form::All),
            Form::Count => Ok(Form::Count),
            Form::Key(key) => Ok(Form::Key(key.copy()?)),
        }
    }
}

/// A query of the table of this id.
#[derive(Debug, Drop)]
pub struct Query {
    pub table: u32,
    pub form: Form,
}

impl Query {
    /// An equal one, which owns memory of its own.
    pub fn copy(&self) -> Result<Query, NoMemory>
        ensures equal { IfOk result (λ query. query ≡ self.now) }
    {
        let form = self.form.copy()?;
        Ok(Query {
            table: self.table,
            form,
        })
    }
}
