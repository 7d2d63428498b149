//! The number that a key begins with. It is kept beside each part of a block, so that most keys are told apart there, without a
//! way to the key itself.

ghost use Rattle.std.specs.Prelude.{◌≡◌};
ghost use Rattle.row_tree.specs.Heads.{head_of, reach_by_heads};

use rl_value::{Row, Value};
use std::cmp::Ordering;

/// The number that the row begins with, where it begins with one.
pub(crate) fn head_of(row: &Row) -> Option<i64>
    ensures exact { result ≡ head_of row.now }
{
    match row.values() {
        [Value::Number(number), ..] => Some(*number),
        _ => None,
    }
}

/// Whether a row with the first head is not above one with the second, where the heads tell.
pub(crate) fn reach_by_heads(least: &Option<i64>, key: &Option<i64>) -> Option<bool>
    ensures exact { result ≡ reach_by_heads least.now key.now }
{
    let Some(least) = least else {
        return None;
    };
    let Some(key) = key else {
        return None;
    };
    match least.cmp(key) {
        Ordering::Less => Some(true),
        Ordering::Equal => None,
        Ordering::Greater => Some(false),
    }
}
