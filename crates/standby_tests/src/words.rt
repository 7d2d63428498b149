//! What no clause says: that calls with ample memory succeed.

use rl_value::Xid;
use script_words::{WordsFault, number_in, words_of, xid_of};
use std::alloc::Global;
use std::test::Fail;

fn word_count(alloc: Global, line: &str) -> Result<usize, WordsFault> {
    let words = words_of(alloc, line.as_bytes())?;
    Ok(words.len())
}

#[test]
fn a_line_has_words_with_one_space_between(rt: HostRuntime) -> Result<(), Fail> {
    let cases = [
        ("CHECK", Ok(1)),
        ("ROW HR.EMP 1 'A b'", Ok(4)),
        ("a'b c", Ok(2)),
        ("''", Ok(1)),
        ("'it''s it' x", Ok(2)),
        ("", Err(WordsFault::Grammar)),
        (" a", Err(WordsFault::Grammar)),
        ("a ", Err(WordsFault::Grammar)),
        ("a  b", Err(WordsFault::Grammar)),
        ("'a b", Err(WordsFault::Grammar)),
        ("'a'b", Err(WordsFault::Grammar)),
    ];
    for (line, want) in cases {
        assert_eq!(rt; word_count(rt.alloc(), line), want, "of {line}");
    }
    Ok(())
}

#[test]
fn a_number_is_decimal_and_within_its_limits(rt: HostRuntime) -> Result<(), Fail> {
    let cases = [
        ("1", Some(1)),
        ("16", Some(16)),
        ("0", None),
        ("17", None),
        ("01", None),
        ("+1", None),
        ("-1", None),
        ("1x", None),
        ("", None),
        ("18446744073709551616", None),
    ];
    for (word, want) in cases {
        assert_eq!(rt; number_in(1, 16, word.as_bytes()), want, "of {word}");
    }
    Ok(())
}

#[test]
fn an_id_is_three_numbers(rt: HostRuntime) -> Result<(), Fail> {
    let id = Xid {
        usn: 65535,
        slot: 0,
        sqn: 4294967295,
    };
    assert_eq!(rt; xid_of(b"65535.0.4294967295"), Some(id));
    assert_eq!(rt; xid_of(b"65536.0.1"), None);
    assert_eq!(rt; xid_of(b"1.2.3.4"), None);
    Ok(())
}
