//! The rows of one table, without their keys.
ghost use Rattle.std.specs.Prelude.{◌≡◌, [], map};

use rl_value::Row;
use row_tree::TreeEntries;
use std::marker::Model;

/// The rows of one table, in rising order of its primary key. It is seen as the list of those that are left.
#[derive(Drop)]
pub struct RowList<'a> {
    entries: Option<TreeEntries<'a>>,
}

impl<'a> Model for RowList<'a> {
    ghost use Rattle.std.specs.Prelude.{List, [], map, unwrap_or};
    ghost use Rattle.rl_value.specs.declared.value.Value.{Value as Item};

    ghost Value = { List (List Item) };

    ghost view = { λ l. map (λ e. e.1) (unwrap_or l.entries []) };
}

impl<'a> RowList<'a> {
    /// The rows of these entries.
    pub(crate) fn of(entries: TreeEntries<'a>) -> RowList<'a>
        ensures rows { result ≡ map (λ e. e.1) entries.entry }
    {
        RowList {
            entries: Some(entries),
        }
    }

    /// No row.
    pub(crate) fn empty() -> RowList<'a>
        ensures none { result ≡ [] }
    {
        RowList { entries: None }
    }
}

impl<'a> Iterator for RowList<'a> {
    type Item = &'a Row;

    ghost use Rattle.std.specs.Prelude.{length};
    ghost use Rattle.std.specs.Iterator.{at_most};
    ghost use Rattle.std.specs.Map.Iter.{TakesFirst, deref};

    ghost next_gives = { TakesFirst deref };

    ghost remaining = { λ s. at_most (length s) };

    fn next(&mut self) -> Option<&'a Row> {
        match &mut self.entries {
            None => None,
            Some(entries) => match entries.next() {
                None => None,
                Some((_, row)) => Some(row),
            },
        }
    }
}
