//! Rows: the values of all columns of a table, in the columns' order, or those of a key.
//!
//! Rows are ordered by the first value that differs; where one is the front of the other, the shorter comes
//! first. The order of values is that of specs/Order.antt.

ghost use Rattle.std.specs.Prelude.{◌≡◌, ◌<◌, List, IfOk, OnOk, refl, take};
ghost use Rattle.std.specs.Ordering.{as_partial_cmp, eq_by_cmp};
ghost use Rattle.std.specs.Cmp;
ghost use Rattle.std.specs.Cmp.{partial_order_from_agreeing_total, eq_by_cmp_equiv};
ghost use Rattle.rl_value.specs.Text.{IsRow};
ghost use Rattle.rl_value.specs.Order.{row_cmp, row_total};

use crate::memory::NoMemory;
use crate::value::Value;
use std::cmp::Ordering;
use std::marker::Model;

/// A list of 1 to `MAX_COLUMNS` values.
#[derive(Debug, Drop)]
pub struct Row {
    values: Vec<Value>,
}

impl Model for Row {
    ghost use Rattle.std.specs.Prelude.{List};
    ghost use Rattle.rl_value.specs.declared.value.Value.{Value as Item};

    ghost Value = { List Item };

    ghost use Rattle.rl_value.specs.Text.{IsRow};

    ghost view = { λ r. r.values.items };

    ghost invariant = { λ r. IsRow r.values.items };
}

impl Row {
    /// The row of these values.
    pub fn of(values: Vec<Value>) -> Row
        requires row { IsRow values.items }
        ensures same { result ≡ values.items }
    {
        Row { values }
    }

    /// The values, by column.
    pub fn values(&self) -> &[Value]
        ensures row { IsRow self.now }
        ensures same { result.now ≡ self.now }
    {
        self.values.as_slice()
    }

    /// Gives up what it holds, in order. It takes no memory.
    pub fn into_items(self) -> Vec<Value>
        ensures row { IsRow self }
        ensures same { result.items ≡ self }
    {
        self.values
    }

    /// An equal one, which owns memory of its own.
    pub fn copy(&self) -> Result<Row, NoMemory>
        ensures equal { IfOk result (λ row. row ≡ self.now) }
    {
        match copied(&self.values) {
            Ok(values) => Ok(Row { values }),
            Err(NoMemory) => Err(NoMemory),
        }
    }
}

fn copied(values: &Vec<Value>) -> Result<Vec<Value>, NoMemory>
    ensures equal { IfOk result (λ copies. copies.items ≡ values.now.items) }
{
    let Ok(mut copies) = Vec::with_capacity(*values.allocator(), values.len()) else {
        return Err(NoMemory);
    };
    for value in values {
        if copies.push(value.copy()?).is_err() {
            return Err(NoMemory);
        }
    }
    Ok(copies)
}

impl PartialEq for Row {
    ghost eq = { eq_by_cmp row_cmp };

    ghost laws = { Cmp.partial_equiv_from_equiv (eq_by_cmp_equiv row_total) };

    fn eq(&self, other: &Row) -> bool {
        self.cmp(other) == Ordering::Equal
    }
}

impl Eq for Row {
    ghost laws = { eq_by_cmp_equiv row_total };
}

impl PartialOrd for Row {
    ghost partial_cmp = { as_partial_cmp row_cmp };

    ghost laws = { partial_order_from_agreeing_total row_cmp row_total (λ x y. refl) (λ x y. refl) };

    fn partial_cmp(&self, other: &Row) -> Option<Ordering> {
        Some(self.cmp(other))
    }
}

impl Ord for Row {
    ghost cmp = { row_cmp };

    ghost total = { row_total };

    ghost matches_partial_cmp = { λ x y. refl };

    ghost matches_eq = { λ x y. refl };

    fn cmp(&self, other: &Row) -> Ordering {
        self.values.cmp(&other.values)
    }
}
