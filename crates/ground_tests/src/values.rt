//! What no clause says: that a call with ample memory succeeds, and the edges of each form.

use rl_value::{
    Bin, Bytes, Cause, Cells, Key, Keys, LawFault, Miss, Name, Row, Stop, Txt, TxtFault, Value,
    Verdict, Xid,
};
use std::cmp::Ordering;
use std::test::Fail;

#[test]
fn a_raw_value_has_1_to_500_bytes(rt: HostRuntime) -> Result<(), Fail> {
    let alloc = rt.alloc();
    let cases = [
        (0, Err(TxtFault::Empty)),
        (1, Ok(1)),
        (500, Ok(500)),
        (501, Err(TxtFault::Size)),
    ];
    for (count, want) in cases {
        let bytes = vec![in alloc; 0xFF; count]?;
        let found = Bin::of(alloc, &bytes).map(|bin| bin.bytes().len());
        assert_eq!(rt; found, want, "at {count} bytes");
    }
    Ok(())
}

#[test]
fn a_text_is_utf8(rt: HostRuntime) -> Result<(), Fail> {
    let alloc = rt.alloc();
    let e_acute = [0xC3, 0xA9];
    assert_eq!(rt;
        Txt::of(alloc, &e_acute).map(|text| text.bytes().len()),
        Ok(2)
    );
    assert_eq!(rt;
        Txt::of(alloc, &e_acute[..1]).map(|text| text.bytes().len()),
        Err(TxtFault::Utf8)
    );
    let long = vec![in alloc; 0xFF; 501]?;
    assert_eq!(rt;
        Txt::of(alloc, &long).map(|text| text.bytes().len()),
        Err(TxtFault::Size)
    );
    Ok(())
}

#[test]
fn a_name_is_30_bytes_at_most_and_begins_with_a_letter(rt: HostRuntime) {
    let cases = [
        ("", false),
        ("A", true),
        ("A0_$#", true),
        ("0A", false),
        ("a", false),
        ("A-B", false),
        ("ABCDEFGHIJKLMNOPQRSTUVWXYZ0123", true),
        ("ABCDEFGHIJKLMNOPQRSTUVWXYZ01234", false),
    ];
    for (text, want) in cases {
        let found = Name::of(text.as_bytes()).is_some();
        assert_eq!(rt; found, want, "at {text}");
    }
}

#[test]
fn values_are_ordered_by_kind_and_then_by_value(rt: HostRuntime) -> Result<(), Fail> {
    let alloc = rt.alloc();
    let rising = [
        Value::Null,
        Value::Number(-1),
        Value::Number(0),
        Value::Text(Txt::of(alloc, b"A")?),
        Value::Text(Txt::of(alloc, b"AA")?),
        Value::Text(Txt::of(alloc, b"B")?),
        Value::Raw(Bin::of(alloc, b"A")?),
    ];
    for (i, low) in rising.iter().enumerate() {
        for (j, high) in rising.iter().enumerate() {
            let want = i.cmp(&j);
            assert_eq!(rt; low.cmp(high), want, "at {i} and {j}");
        }
    }
    Ok(())
}

#[test]
fn copies_are_made(rt: HostRuntime) -> Result<(), Fail> {
    let alloc = rt.alloc();
    let text = Value::Text(Txt::of(alloc, b"A")?);
    let raw = Value::Raw(Bin::of(alloc, b"A")?);
    let row = Row::of(vec![in alloc; Value::Number(1), Value::Null, text, raw]?);
    let key = Key {
        table: 7,
        index: 1,
        values: row.copy()?,
    };
    assert_eq!(rt; key.copy()?.cmp(&key), Ordering::Equal);
    let keys = Keys::of(vec![in alloc; key.copy()?]?);
    assert_eq!(rt; keys.copy()?.items().len(), 1);
    let cells = Cells::of(vec![in alloc; (31, Value::Null)]?);
    assert_eq!(rt; cells.copy()?.cells().len(), 1);
    let bytes = Bytes::of(vec![in alloc; 1, 2]?);
    assert_eq!(rt; bytes.copy()?.bytes().len(), 2);
    let miss = Miss::Taken {
        index: 1,
        owner: key,
    };
    let copied = matches!(miss.copy()?, Miss::Taken { .. });
    assert!(rt; copied);
    Ok(())
}

#[test]
fn ends_of_a_run_are_copied(rt: HostRuntime) -> Result<(), Fail> {
    let alloc = rt.alloc();
    let key = Key {
        table: 7,
        index: 0,
        values: Row::of(vec![in alloc; Value::Number(1)]?),
    };
    let holder = Xid {
        usn: 1,
        slot: 2,
        sqn: 3,
    };
    let cause = Cause::Law(LawFault::Lock { key, holder });
    let verdict = Verdict::Stopped(Stop::Malformed { rec: 9, cause });
    let copied = matches!(
        verdict.copy()?,
        Verdict::Stopped(Stop::Malformed {
            rec: 9,
            cause: Cause::Law(LawFault::Lock { .. })
        })
    );
    assert!(rt; copied);
    Ok(())
}
