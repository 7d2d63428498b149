//! A value of a column.
//!
//! Values are ordered by kind, Null, numbers, texts, raws, and within a kind by value or by bytes
//! (specs/Order.antt). Null equals Null here; that a unique key with a Null in it is not enforced is the
//! keys' rule and not the values'.

ghost use Rattle.std.specs.Prelude.{◌≡◌, ◌<◌, IfOk, refl};
ghost use Rattle.std.specs.Ordering.{as_partial_cmp};
ghost use Rattle.std.specs.Cmp;
ghost use Rattle.std.specs.Cmp.{partial_order_from_agreeing_total, eq_by_cmp_equiv};
ghost use Rattle.rl_value.specs.Order.{value_cmp, value_eq, value_total};

use crate::bin::Bin;
use crate::memory::NoMemory;
use crate::txt::Txt;
use std::cmp::Ordering;

/// A value.
#[derive(Debug, Drop)]
pub enum Value {
    /// No value. A text or a raw value of no bytes is Null.
    Null,
    Number(i64),
    Text(Txt),
    Raw(Bin),
}

impl Value {
    /// An equal one, which owns memory of its own.
    pub fn copy(&self) -> Result<Value, NoMemory>
        ensures equal { IfOk result (λ value. value ≡ self.now) }
    {
        match self {
            Value::Null => Ok(Value::Null),
            Value::Number(number) => Ok(Value::Number(*number)),
            Value::Text(text) => Ok(Value::Text(text.copy()?)),
            Value::Raw(raw) => Ok(Value::Raw(raw.copy()?)),
        }
    }
}

impl PartialEq for Value {
    ghost eq = { value_eq };

    ghost laws = { Cmp.partial_equiv_from_equiv (eq_by_cmp_equiv value_total) };

    fn eq(&self, other: &Value) -> bool {
        self.cmp(other) == Ordering::Equal
    }
}

impl Eq for Value {
    ghost laws = { eq_by_cmp_equiv value_total };
}

impl PartialOrd for Value {
    ghost partial_cmp = { as_partial_cmp value_cmp };

    ghost laws = { partial_order_from_agreeing_total value_cmp value_total (λ x y. refl) (λ x y. refl) };

    fn partial_cmp(&self, other: &Value) -> Option<Ordering> {
        Some(self.cmp(other))
    }
}

impl Ord for Value {
    ghost cmp = { value_cmp };

    ghost total = { value_total };

    ghost matches_partial_cmp = { λ x y. refl };

    ghost matches_eq = { λ x y. refl };

    fn cmp(&self, other: &Value) -> Ordering {
        match self {
            Value::Null => match other {
                Value::Null => Ordering::Equal,
                _ => Ordering::Less,
            },
            Value::Number(here) => match other {
                Value::Null => Ordering::Greater,
                Value::Number(there) => here.cmp(there),
                Value::Text(_) | Value::Raw(_) => Ordering::Less,
            },
            Value::Text(here) => match other {
                Value::Null | Value::Number(_) => Ordering::Greater,
                Value::Text(there) => here.bytes().cmp(&there.bytes()),
                Value::Raw(_) => Ordering::Less,
            },
            Value::Raw(here) => match other {
                Value::Raw(there) => here.bytes().cmp(&there.bytes()),
                _ => Ordering::Greater,
            },
        }
    }
}
