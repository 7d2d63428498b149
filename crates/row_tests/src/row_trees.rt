//! What no clause says: that ample memory is enough, over more rows than two blocks hold.

use rl_value::{Row, Value};
use row_tree::Tree;
use std::alloc::Global;
use std::test::Fail;

fn row_of(alloc: Global, number: i64) -> Result<Row, Fail> {
    Ok(Row::of(vec![in alloc; Value::Number(number)]?))
}

fn number_of(row: &Row) -> i64 {
    match row.values() {
        [Value::Number(number), ..] => *number,
        _ => -1,
    }
}

// The number of the row under this key, or -1 where there is none.
fn found(alloc: Global, tree: &Tree, key: i64) -> Result<i64, Fail> {
    let key = row_of(alloc, key)?;
    match tree.get(&key) {
        None => Ok(-1),
        Some(row) => Ok(number_of(row)),
    }
}

fn with(alloc: Global, tree: Tree, key: i64, number: i64) -> Result<Tree, Fail> {
    let key = row_of(alloc, key)?;
    let row = row_of(alloc, number)?;
    Ok(tree.put(key, row)?)
}

fn without(alloc: Global, tree: Tree, key: i64) -> Result<Tree, Fail> {
    let key = row_of(alloc, key)?;
    Ok(tree.remove(&key)?)
}

// The keys 0 to 99, in an order that does not rise, each with a row of its own number.
fn hundred(alloc: Global) -> Result<Tree, Fail> {
    let mut tree = Tree::new(alloc);
    let mut key: u8 = 0;
    for _ in 0..100 {
        tree = with(alloc, tree, i64::from(key), i64::from(key))?;
        key = (key % 100 + 37) % 100;
    }
    Ok(tree)
}

#[test]
fn a_write_does_not_reach_the_snapshot_before_it(rt: HostRuntime) -> Result<(), Fail> {
    let alloc = rt.alloc();
    let before = hundred(alloc)?;
    let after = with(alloc, before.snapshot()?, 41, 1000)?;
    let after = without(alloc, after, 42)?;
    let cases = [(40, 40, 40), (41, 41, 1000), (42, 42, -1), (100, -1, -1)];
    for (key, old, new) in cases {
        assert_eq!(rt; found(alloc, &before, key)?, old, "before, at {key}");
        assert_eq!(rt; found(alloc, &after, key)?, new, "after, at {key}");
    }
    Ok(())
}

#[test]
fn the_walk_gives_all_rows_in_order(rt: HostRuntime) -> Result<(), Fail> {
    let tree = hundred(rt.alloc())?;
    let mut next = 0;
    for (key, row) in tree.entries() {
        assert_eq!(rt; number_of(key), next);
        assert_eq!(rt; number_of(row), next);
        if next < 1000 {
            next += 1;
        }
    }
    assert_eq!(rt; next, 100);
    Ok(())
}
