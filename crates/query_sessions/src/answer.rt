//! What a query is answered: rows, their count, or that they are too many.
ghost use Rattle.std.specs.Prelude.{◌≡◌, IfOk};

use rl_value::{NoMemory, Row};
use std::marker::Model;

/// The rows of an answer, in rising order of their primary keys.
#[derive(Debug, Drop)]
pub struct RowLines {
    rows: Vec<Row>,
}

impl Model for RowLines {
    ghost use Rattle.std.specs.Prelude.{List};
    ghost use Rattle.rl_value.specs.declared.value.Value.{Value as Item};

    ghost Value = { List (List Item) };

    ghost view = { λ r. r.rows.items };
}

impl RowLines {
    /// The list of these rows. It may be empty.
    pub fn of(rows: Vec<Row>) -> RowLines
        ensures same { result ≡ rows.items }
    {
        RowLines { rows }
    }

    /// What it holds, in order.
    pub fn items(&self) -> &[Row]
        ensures same { result.now ≡ self.now }
    {
        self.rows.as_slice()
    }

    /// Gives up what it holds, in order. It takes no memory.
    pub fn into_items(self) -> Vec<Row>
        ensures same { result.items ≡ self }
    {
        self.rows
    }

    /// An equal one, which owns memory of its own.
    pub fn copy(&self) -> Result<RowLines, NoMemory>
        ensures equal { IfOk result (λ rows. rows ≡ self.now) }
    {
        match copied(&self.rows) {
            Ok(rows) => Ok(RowLines { rows }),
            Err(NoMemory) => Err(NoMemory),
        }
    }
}

fn copied(rows: &Vec<Row>) -> Result<Vec<Row>, NoMemory>
    ensures equal { IfOk result (λ copies. copies.items ≡ rows.now.items) }
{
    let Ok(mut copies) = Vec::with_capacity(*rows.allocator(), rows.len()) else {
        return Err(NoMemory);
    };
    for row in rows {
        if copies.push(row.copy()?).is_err() {
            return Err(NoMemory);
        }
    }
    Ok(copies)
}

/// The answer of a query.
#[derive(Debug, Drop)]
pub enum Answer {
    /// The rows that match.
    Rows(RowLines),
    /// How many rows match, where that was asked.
    Count(u64),
    /// How many rows match, where these are more than may be answered.
    Many(u64),
}

impl Answer {
    /// An equal one, which owns memory of its own.
    pub fn copy(&self) -> Result<Answer, NoMemory>
        ensures equal { IfOk result (λ answer. answer ≡ self.now) }
    {
        match self {
            Answer::Rows(rows) => Ok(Answer::Rows(rows.copy()?)),
            Answer::Count(count) => Ok(Answer::Count(*count)),
            Answer::Many(count) => Ok(Answer::Many(*count)),
        }
    }
}
