//! What no clause says: that calls with ample memory succeed, and the edges of patterns and of the limit.
use crate::lines::dictionary;
use redo_vec::{Change, Op};
use rl_value::{Cells, Value, Xid};
use skip_guard::{Level, Pattern, SkipEntry, SkipFault, SkipRule, Skips, allowed};
use std::alloc::Global;
use std::test::Fail;

#[test]
fn a_pattern_is_two_parts_of_1_to_30_bytes(rt: HostRuntime) -> Result<(), Fail> {
    let alloc = rt.alloc();
    let cases = [
        ("A.B", true),
        ("%.%", true),
        ("9_$#.A%_", true),
        (
            "ABCDEFGHIJKLMNOPQRSTUVWXYZ0123.ABCDEFGHIJKLMNOPQRSTUVWXYZ0123",
            true,
        ),
        ("ABCDEFGHIJKLMNOPQRSTUVWXYZ01234.B", false),
        ("A.ABCDEFGHIJKLMNOPQRSTUVWXYZ01234", false),
        (".B", false),
        ("A.", false),
        ("", false),
        ("AB", false),
        ("A.B.C", false),
        ("A.b", false),
    ];
    for (text, want) in cases {
        let found = Pattern::of(alloc, text.as_bytes())?.is_some();
        assert!(rt; found == want, "at {text}");
    }
    Ok(())
}

#[test]
fn a_pattern_matches_a_whole_name(rt: HostRuntime) -> Result<(), Fail> {
    let alloc = rt.alloc();
    let cases = [
        ("HR.EMP", "HR.EMP", true),
        ("HR.EMP", "HR.EMPS", false),
        ("HR.EMPS", "HR.EMP", false),
        ("HR.E_P", "HR.EMP", true),
        ("HR.E_P", "HR.EP", false),
        ("HR.%", "HR.EMP", true),
        ("HR.EMP%", "HR.EMP", true),
        ("HR.%", "HRX.EMP", false),
        ("%.%AAB", "HR.AAAB", true),
        ("%.%AB%AC", "HR.ABABAC", true),
        ("%.%AB%AB", "HR.CAB", false),
        (
            "%A%A%A%A%A%A%A%A%A%A%A%A%A%B.%",
            "AAAAAAAAAAAAAAAAAAAAAAAAAAAAAA.T",
            false,
        ),
    ];
    for (text, name, want) in cases {
        let found = match Pattern::of(alloc, text.as_bytes())? {
            None => false,
            Some(pattern) => pattern.matches(name.as_bytes()) == want,
        };
        assert!(rt; found, "at {text} and {name}");
    }
    Ok(())
}

fn xid(sqn: u32) -> Xid {
    Xid {
        usn: 1,
        slot: 2,
        sqn,
    }
}

fn by_xid(sqn: u32, from: u64) -> SkipEntry {
    SkipEntry {
        rule: SkipRule::Transaction(xid(sqn)),
        from,
    }
}

#[test]
fn a_rule_is_there_once_and_256_are_there(rt: HostRuntime) -> Result<(), Fail> {
    let mut skips = Skips::new(rt.alloc());
    for sqn in 0..256 {
        let taken = skips.add(by_xid(sqn, 0)).is_ok();
        assert!(rt; taken, "at {sqn}");
    }
    let more = skips.add(by_xid(256, 0)).map_err(|refused| refused.0);
    assert!(rt; more == Err(SkipFault::Limit));
    let again = skips.add(by_xid(255, 9)).map_err(|refused| refused.0);
    assert!(rt; again == Err(SkipFault::Twice));
    assert!(rt; skips.entries().len() == 256);
    Ok(())
}

// HR.EMP, with the id 1: one column, a number, which is the primary key.
const EMP: &str = "TABLE 1 HR.EMP COLUMNS ID:NUMBER KEY ID";

fn insert(alloc: Global, sqn: u32, table: u32) -> Result<Change, Fail> {
    Ok(Change {
        xid: xid(sqn),
        op: Op::Insert,
        table,
        old: Cells::of(Vec::new(alloc)),
        new: Cells::of(vec![in alloc; (0, Value::Null)]?),
    })
}

// Skips tables of HR from commit 5 on, and the transaction 1.2.7 from commit 1 on.
fn skips_of_two_kinds(alloc: Global) -> Result<Skips, Fail> {
    let mut skips = Skips::new(alloc);
    if let Some(pattern) = Pattern::of(alloc, b"HR.%")? {
        let entry = SkipEntry {
            rule: SkipRule::Tables(pattern),
            from: 4,
        };
        let _taken = skips.add(entry).is_ok();
    }
    let _taken = skips.add(by_xid(7, 0)).is_ok();
    Ok(skips)
}

#[test]
fn a_rule_counts_from_the_next_commit_on(rt: HostRuntime) -> Result<(), Fail> {
    let alloc = rt.alloc();
    let dict = dictionary(alloc, EMP)?;
    let skips = skips_of_two_kinds(alloc)?.copy()?;
    let cases = [
        (3, 1, 3, false),
        (3, 1, 4, true),
        (3, 2, 4, false),
        (7, 1, 0, true),
        (7, 2, 0, true),
    ];
    for (sqn, table, at, want) in cases {
        let change = insert(alloc, sqn, table)?;
        let found = skips.skipped(&dict, &change, at);
        assert!(rt; found == want, "at {sqn}, {table} and {at}");
    }
    Ok(())
}

#[test]
fn the_guard_lets_skipped_tables_be_written(rt: HostRuntime) -> Result<(), Fail> {
    let alloc = rt.alloc();
    let dict = dictionary(alloc, EMP)?;
    let skips = skips_of_two_kinds(alloc)?;
    let before = !skips.table_skipped(&dict, 1, 3);
    let after = !skips.table_skipped(&dict, 1, 4);
    assert!(rt; !allowed(Level::Standby, before) && allowed(Level::Standby, after));
    assert!(rt; !allowed(Level::All, after));
    Ok(())
}
