//! In which part of a list a key belongs.

ghost use Rattle.std.specs.Prelude.{◌≡◌, ◌<◌, length, Some};
ghost use Rattle.std.specs.Ordering.{is_le};
ghost use Rattle.rl_value.specs.Order.{row_cmp};
ghost use Rattle.row_tree.specs.Entries.{first_key};
ghost use Rattle.row_tree.specs.Heads.{head_of, least_key};
ghost use Rattle.row_tree.specs.Sound.{AreSound, IsPlace};

use crate::head::{head_of, reach_by_heads};
use crate::part::Part;
use rl_value::Row;

// The least key of the part is not above this key, which begins so. Where both begin with numbers that differ, these tell it.
#[tactic(auto, using(crate::proofs::Heads::heads_tell))]
fn reaches<K: Part>(child: &K, key: &Row, head: &Option<i64>) -> bool
    requires sound { K.sound child.now }
    requires headed { head.now ≡ head_of key.now }
    ensures some { first_key (K.entries child.now) ≡ Some (least_key (K.entries child.now)) }
    ensures exact { result ≡ is_le (row_cmp (least_key (K.entries child.now)) key.now) }
{
    if let Some(told) = reach_by_heads(child.head(), head) {
        return told;
    }
    child.least().cmp(key).is_le()
}

/// The place of the last part whose least key is not above this key, or 0.
pub(crate) fn seek<K: Part>(children: &[K], key: &Row) -> usize
    requires sound { AreSound K.entries K.sound children.now }
    ensures inside { result < length children.now }
    ensures place { IsPlace K.entries key.now children.now result }
{
    let head = head_of(key);
    let mut low = 0;
    let mut high = children.len();
    while high - low > 1 {
        let middle = low + (high - low) / 2;
        if reaches(&children[middle], key, &head) {
            low = middle;
        } else {
            high = middle;
        }
    }
    low
}
