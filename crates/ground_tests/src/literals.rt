//! The look of each literal, which bytes are none, and that the calls which want memory succeed where there is some.

ghost use Rattle.std.specs.Prelude.{None, true};

use rl_base::Line;
use rl_ports::{Failed, Sink, Source};
use rl_text::{put_key, put_line, put_row, put_value, put_xid, read_all, read_value};
use rl_value::{Bin, Key, Row, Txt, Value, Xid};
use std::test::Fail;

#[test]
fn each_value_has_its_literal(rt: HostRuntime) -> Result<(), Fail> {
    let alloc = rt.alloc();
    let cases = [
        (Value::Null, "NULL"),
        (Value::Number(-9223372036854775808), "-9223372036854775808"),
        (Value::Number(0), "0"),
        (Value::Text(Txt::of(alloc, b"it's")?), "'it''s'"),
        (Value::Text(Txt::of(alloc, b"a\nb")?), "U'610A62'"),
        (Value::Text(Txt::of(alloc, b"\x7F")?), "U'7F'"),
        (Value::Raw(Bin::of(alloc, b"\x00\xFF")?), "X'00FF'"),
    ];
    for (value, want) in cases {
        let mut line = Line::new(alloc);
        put_value(alloc, &mut line, &value)?;
        assert_eq!(rt; line.items(), want.as_bytes(), "for {want}");
    }
    Ok(())
}

#[test]
fn rows_keys_and_ids_are_spelled(rt: HostRuntime) -> Result<(), Fail> {
    let alloc = rt.alloc();
    let values = Row::of(vec![in alloc; Value::Number(1), Value::Null]?);
    let mut line = Line::new(alloc);
    put_row(alloc, &mut line, &values)?;
    line.push(b' ')?;
    let key = Key {
        table: 1,
        index: 0,
        values,
    };
    put_key(alloc, &mut line, &key)?;
    line.push(b' ')?;
    let xid = Xid {
        usn: 1,
        slot: 2,
        sqn: 4294967295,
    };
    put_xid(alloc, &mut line, xid)?;
    assert_eq!(rt; line.items(), b"1 NULL (1,NULL) 1.2.4294967295".as_slice());
    Ok(())
}

#[test]
fn literals_are_read(rt: HostRuntime) -> Result<(), Fail> {
    let alloc = rt.alloc();
    let cases = [
        ("NULL", Value::Null),
        ("''", Value::Null),
        ("0", Value::Number(0)),
        ("-9223372036854775808", Value::Number(-9223372036854775808)),
        ("9223372036854775807", Value::Number(9223372036854775807)),
        ("'it''s'", Value::Text(Txt::of(alloc, b"it's")?)),
        ("''''", Value::Text(Txt::of(alloc, b"'")?)),
        ("'\u{e9}'", Value::Text(Txt::of(alloc, b"\xC3\xA9")?)),
        ("U'C3A9'", Value::Text(Txt::of(alloc, b"\xC3\xA9")?)),
        ("U'61'", Value::Text(Txt::of(alloc, b"a")?)),
        ("X'00FF'", Value::Raw(Bin::of(alloc, b"\x00\xFF")?)),
    ];
    for (text, want) in cases {
        let found = read_value(alloc, text.as_bytes())?;
        assert_eq!(rt; found, Some(want), "for {text}");
    }
    Ok(())
}

#[test]
fn other_bytes_are_no_literals(rt: HostRuntime) -> Result<(), Fail> {
    let alloc = rt.alloc();
    let cases = [
        "",
        "null",
        "NULLS",
        "-0",
        "+1",
        "01",
        "-",
        "9223372036854775808",
        "1 ",
        "'",
        "'a",
        "'a'b",
        "'it's'",
        "'a\nb'",
        "'\x7F'",
        "U''",
        "U'6'",
        "U'c3a9'",
        "U'FF'",
        "U61",
        "X''",
        "X'0f'",
        "X'00",
        "x'00'",
    ];
    for text in cases {
        let found = read_value(alloc, text.as_bytes())?;
        assert_eq!(rt; found, None, "for {text}");
    }
    Ok(())
}

#[test]
fn a_text_has_up_to_500_bytes(rt: HostRuntime) -> Result<(), Fail> {
    let alloc = rt.alloc();
    let cases = [(500, true), (501, false)];
    for (count, want) in cases {
        let mut bytes = vec![in alloc; b'\'']?;
        bytes.extend_from_slice(&vec![in alloc; b'a'; count]?)?;
        bytes.push(b'\'')?;
        let found = read_value(alloc, &bytes)?;
        assert_eq!(rt; found.is_some(), want, "at {count} bytes");
    }
    Ok(())
}

/// A device that moves one byte at a time and tells nothing.
#[derive(Drop)]
struct Slow {
    bytes: Vec<u8>,
    at: usize,
    faults: u64,
}

impl Source for Slow {
    ghost left = { λ _. None };

    ghost counts_failures_alone = { true };

    ghost faults = { λ s. s.faults };

    fn read(&mut self, into: &mut [u8]) -> Result<usize, Failed> {
        let Some(place) = into.first_mut() else {
            return Ok(0);
        };
        let Some(byte) = self.bytes.get(self.at) else {
            return Ok(0);
        };
        *place = *byte;
        self.at = self.at.saturating_add(1);
        Ok(1)
    }
}

impl Sink for Slow {
    ghost written = { λ _. None };

    ghost counts_failures_alone = { true };

    ghost faults = { λ s. s.faults };

    fn write(&mut self, from: &[u8]) -> Result<usize, Failed> {
        let Some(byte) = from.first() else {
            return Ok(0);
        };
        if self.bytes.push(*byte).is_err() {
            self.faults = self.faults.saturating_add(1);
            return Err(Failed);
        }
        Ok(1)
    }
}

#[test]
fn an_input_is_read_to_one_byte_past_what_is_allowed(rt: HostRuntime) -> Result<(), Fail> {
    let alloc = rt.alloc();
    let cases = [(0, "a"), (2, "abc"), (3, "abcd"), (4, "abcd"), (9, "abcd")];
    for (most, want) in cases {
        let mut input = Slow {
            bytes: vec![in alloc; b'a', b'b', b'c', b'd']?,
            at: 0,
            faults: 0,
        };
        let Ok(read) = read_all(alloc, &mut input, most) else {
            return Err(Fail::from("not read"));
        };
        assert_eq!(rt; read.as_slice(), want.as_bytes(), "up to {most}");
    }
    Ok(())
}

#[test]
fn a_line_is_written_with_its_end(rt: HostRuntime) -> Result<(), Fail> {
    let alloc = rt.alloc();
    let mut out = Slow {
        bytes: Vec::new(alloc),
        at: 0,
        faults: 0,
    };
    let mut line = Line::new(alloc);
    line.extend(b"ROW 7")?;
    assert_eq!(rt; put_line(&mut out, &line), Ok(()));
    assert_eq!(rt; out.bytes.as_slice(), b"ROW 7\n".as_slice());
    Ok(())
}
