//! Prints values, rows, keys and transaction ids at the end of a line.
//!
//! A call puts all of it or nothing: the text is made beside the line and then put there in one piece.
//! How each is spelled: specs/Literal.antt of rl_value.

ghost use Rattle.std.specs.Prelude.{◌≡◌, ◌++◌, ◌∷◌, [], ◌<◌, ◌≤◌, IsTrue, OnOk, OnErr, Some};
ghost use Rattle.std.specs.List.{list_all, flat_map};
ghost use Rattle.std.specs.Fmt.{decimal, signed_decimal};
ghost use Rattle.rl_value.specs.Literal.{literal, hex, hex_digit, quoted, quoted_byte, in_hex, is_printed, text_literal, row_text, key_text, xid_text, AreBytes, IsLiteralOf};
ghost use Rattle.rl_value.specs.LiteralValue.{value_of_literal};
ghost use Rattle.rl_text.specs.Joined.{literals_between, literals_behind};

use rl_base::Line;
use rl_value::{Key, NoMemory, Row, Value, Xid};
use std::alloc::Global;

/// The letter before a text in hexadecimal.
pub const TEXT_LETTER: u8 = b'U';

/// The letter before a raw value in hexadecimal.
pub const RAW_LETTER: u8 = b'X';

pub const QUOTE: u8 = b'\'';

const DELETE: u8 = 0x7F;

/// Puts the literal of a value at the end of a line. It is read as that value.
pub fn put_value(alloc: Global, line: &mut Line, value: &Value) -> Result<(), NoMemory>
    ensures put { OnOk result (line.new ≡ line.old ++ literal value.now) }
    ensures unchanged { OnErr result (line.new ≡ line.old) }
    ensures literal { IsLiteralOf value.now (literal value.now) }
    ensures read { value_of_literal (literal value.now) ≡ Some value.now }
{
    prints_a_literal(value);
    let mut text = Line::new(alloc);
    add_value(alloc, &mut text, value)?;
    line.extend(text.items())
}

/// Puts the values of a row at the end of a line, with one space between.
#[tactic(auto, using(crate::proofs::Texts::values_joined))]
pub fn put_row(alloc: Global, line: &mut Line, row: &Row) -> Result<(), NoMemory>
    ensures put { OnOk result (line.new ≡ line.old ++ row_text row.now) }
    ensures unchanged { OnErr result (line.new ≡ line.old) }
{
    let mut text = Line::new(alloc);
    add_values(alloc, &mut text, b' ', row.values())?;
    line.extend(text.items())
}

/// Puts the values of a key at the end of a line, in brackets with commas between.
#[tactic(auto, using(crate::proofs::Texts::values_joined))]
pub fn put_key(alloc: Global, line: &mut Line, key: &Key) -> Result<(), NoMemory>
    ensures put { OnOk result (line.new ≡ line.old ++ key_text key.now.values) }
    ensures unchanged { OnErr result (line.new ≡ line.old) }
{
    let mut text = Line::new(alloc);
    text.push(b'(')?;
    add_values(alloc, &mut text, b',', key.values.values())?;
    text.push(b')')?;
    line.extend(text.items())
}

/// Puts a transaction id at the end of a line: its three numbers with dots between.
pub fn put_xid(alloc: Global, line: &mut Line, xid: Xid) -> Result<(), NoMemory>
    ensures put { OnOk result (line.new ≡ line.old ++ xid_text xid) }
    ensures unchanged { OnErr result (line.new ≡ line.old) }
{
    let mut text = Line::new(alloc);
    add_number(alloc, &mut text, u64::from(xid.usn))?;
    text.push(b'.')?;
    add_number(alloc, &mut text, u64::from(xid.slot))?;
    text.push(b'.')?;
    add_number(alloc, &mut text, u64::from(xid.sqn))?;
    line.extend(text.items())
}

fn add_values(alloc: Global, text: &mut Line, between: u8, values: &[Value]) -> Result<(), NoMemory>
    requires visible { 32 ≤ between }
    ensures { OnOk result (text.new ≡ text.old ++ literals_between between values.now) }
{
    match values {
        [] => Ok(()),
        [first, others @ ..] => {
            add_value(alloc, text, first)?;
            add_others(alloc, text, between, others)
        }
    }
}

fn add_others(alloc: Global, text: &mut Line, between: u8, values: &[Value]) -> Result<(), NoMemory>
    requires visible { 32 ≤ between }
    ensures { OnOk result (text.new ≡ text.old ++ literals_behind between values.now) }
{
    for value in values {
        text.push(between)?;
        add_value(alloc, text, value)?;
    }
    Ok(())
}

fn add_value(alloc: Global, text: &mut Line, value: &Value) -> Result<(), NoMemory>
    ensures { OnOk result (text.new ≡ text.old ++ literal value.now) }
{
    match value {
        Value::Null => text.extend(b"NULL"),
        Value::Number(number) => add_signed(alloc, text, number),
        Value::Text(bytes) => add_text(text, bytes.bytes()),
        Value::Raw(bytes) => add_in_hex(text, RAW_LETTER, bytes.bytes()),
    }
}

fn add_number(alloc: Global, text: &mut Line, number: u64) -> Result<(), NoMemory>
    ensures { OnOk result (text.new ≡ text.old ++ decimal number) }
{
    let Ok(digits) = format!(in alloc; "{number}") else {
        return Err(NoMemory);
    };
    text.extend(digits.as_bytes())
}

fn add_signed(alloc: Global, text: &mut Line, number: &i64) -> Result<(), NoMemory>
    ensures { OnOk result (text.new ≡ text.old ++ signed_decimal number.now) }
{
    // The range of a number behind a reference is known once it is read.
    let _range = *number;
    let Ok(digits) = format!(in alloc; "{number}") else {
        return Err(NoMemory);
    };
    text.extend(digits.as_bytes())
}

fn add_text(text: &mut Line, bytes: &[u8]) -> Result<(), NoMemory>
    ensures { OnOk result (text.new ≡ text.old ++ text_literal bytes.now) }
{
    if all_printed(bytes) {
        add_quoted(text, bytes)
    } else {
        add_in_hex(text, TEXT_LETTER, bytes)
    }
}

fn add_quoted(text: &mut Line, bytes: &[u8]) -> Result<(), NoMemory>
    requires printed { IsTrue (list_all is_printed bytes.now) }
    ensures { OnOk result (text.new ≡ text.old ++ quoted bytes.now) }
{
    text.push(QUOTE)?;
    add_quoted_bytes(text, bytes)?;
    text.push(QUOTE)
}

fn add_quoted_bytes(text: &mut Line, bytes: &[u8]) -> Result<(), NoMemory>
    requires printed { IsTrue (list_all is_printed bytes.now) }
    ensures { OnOk result (text.new ≡ text.old ++ flat_map quoted_byte bytes.now) }
{
    let mut rest = bytes;
    while let [byte, others @ ..] = rest {
        add_quoted_byte(text, *byte)?;
        rest = others;
    }
    Ok(())
}

fn add_quoted_byte(text: &mut Line, byte: u8) -> Result<(), NoMemory>
    requires printed { IsTrue (is_printed byte) }
    ensures { OnOk result (text.new ≡ text.old ++ quoted_byte byte) }
{
    if byte == QUOTE {
        text.push(QUOTE)?;
    }
    text.push(byte)
}

fn add_in_hex(text: &mut Line, letter: u8, bytes: &[u8]) -> Result<(), NoMemory>
    requires visible { 32 ≤ letter }
    ensures { OnOk result (text.new ≡ text.old ++ in_hex letter bytes.now) }
{
    text.push(letter)?;
    text.push(QUOTE)?;
    add_hex(text, bytes)?;
    text.push(QUOTE)
}

fn add_hex(text: &mut Line, bytes: &[u8]) -> Result<(), NoMemory>
    ensures { OnOk result (text.new ≡ text.old ++ hex bytes.now) }
{
    for byte in bytes {
        text.push(hex_digit_of(*byte / 16))?;
        text.push(hex_digit_of(*byte % 16))?;
    }
    Ok(())
}

fn hex_digit_of(n: u8) -> u8
    requires digit { n < 16 }
    ensures digit { result ≡ hex_digit n }
    ensures visible { 48 ≤ result }
{
    if n < 10 { b'0' + n } else { b'A' + (n - 10) }
}

fn all_printed(bytes: &[u8]) -> bool
    ensures { result ≡ list_all is_printed bytes.now }
{
    bytes.iter().all(|byte| may_be_printed(*byte))
}

pub fn may_be_printed(byte: u8) -> bool
    ensures { result ≡ is_printed byte }
{
    byte >= b' ' && byte != DELETE
}

/// What is printed for a value is a literal of it. It does nothing.
#[tactic(auto, using(crate::proofs::LiteralLaws::printed))]
fn prints_a_literal(value: &Value)
    ensures { IsLiteralOf value.now (literal value.now) }
{
    match value {
        Value::Null => {}
        Value::Number(number) => {
            // The range of a number behind a reference is known once it is read.
            let _range = *number;
            return;
        }
        Value::Text(text) => {
            hold_bytes(text.bytes());
            return;
        }
        Value::Raw(raw) => {
            hold_bytes(raw.bytes());
            return;
        }
    }
}

fn hold_bytes(_bytes: &[u8])
    ensures { AreBytes _bytes.now }
{}
