//! Names and values as SQL spells them.
ghost use Rattle.std.specs.Prelude.{◌≡◌, ◌++◌, ◌∷◌, [], ◌<◌, OnOk};
ghost use Rattle.std.specs.List.{list_all, flat_map};
ghost use Rattle.rl_value.specs.Literal.{hex, hex_digit, quoted, quoted_byte, is_printed};
ghost use Rattle.sql_text.specs.SqlText.{identifier, table_identifier, column_name, column_identifier, hex_to_raw, cast_to_text, text_expression, expression};

use crate::output::{push_bytes, push_signed};
use redo_vec::TableRow;
use rl_value::{NoMemory, Value};

const QUOTE: u8 = b'\'';

const DELETE: u8 = 0x7F;

fn push_byte(out: &mut Vec<u8>, byte: u8) -> Result<(), NoMemory>
    ensures { OnOk result (out.new.items ≡ out.old.items ++ byte ∷ []) }
{
    match out.push(byte) {
        Ok(()) => Ok(()),
        Err(_) => Err(NoMemory),
    }
}

fn push_identifier(out: &mut Vec<u8>, name: &[u8]) -> Result<(), NoMemory>
    ensures { OnOk result (out.new.items ≡ out.old.items ++ identifier name.now) }
{
    push_byte(out, b'"')?;
    push_bytes(out, name)?;
    push_byte(out, b'"')
}

/// Puts "SCHEMA"."NAME".
pub(crate) fn push_table(out: &mut Vec<u8>, table: &TableRow) -> Result<(), NoMemory>
    ensures { OnOk result (out.new.items ≡ out.old.items ++ table_identifier table.now) }
{
    push_identifier(out, table.schema.items())?;
    push_byte(out, b'.')?;
    push_identifier(out, table.name.items())
}

fn column_name(table: &TableRow, column: u8) -> &[u8]
    ensures { result.now ≡ column_name table.now column }
{
    match table.columns.items().get(usize::from(column)) {
        Some(column) => column.name.items(),
        None => &[],
    }
}

pub(crate) fn push_column(out: &mut Vec<u8>, table: &TableRow, column: u8) -> Result<(), NoMemory>
    ensures { OnOk result (out.new.items ≡ out.old.items ++ column_identifier table.now column) }
{
    push_identifier(out, column_name(table, column))
}

/// Puts a value.
pub(crate) fn push_value(out: &mut Vec<u8>, value: &Value) -> Result<(), NoMemory>
    ensures { OnOk result (out.new.items ≡ out.old.items ++ expression value.now) }
{
    match value {
        Value::Null => push_bytes(out, b"NULL"),
        Value::Number(number) => push_signed(out, number),
        Value::Text(text) => push_text(out, text.bytes()),
        Value::Raw(raw) => push_raw(out, raw.bytes()),
    }
}

fn push_text(out: &mut Vec<u8>, bytes: &[u8]) -> Result<(), NoMemory>
    ensures { OnOk result (out.new.items ≡ out.old.items ++ text_expression bytes.now) }
{
    if all_printed(bytes) {
        push_quoted(out, bytes)
    } else {
        push_cast(out, bytes)
    }
}

fn push_quoted(out: &mut Vec<u8>, bytes: &[u8]) -> Result<(), NoMemory>
    ensures { OnOk result (out.new.items ≡ out.old.items ++ quoted bytes.now) }
{
    push_byte(out, QUOTE)?;
    push_quoted_bytes(out, bytes)?;
    push_byte(out, QUOTE)
}

fn push_quoted_bytes(out: &mut Vec<u8>, bytes: &[u8]) -> Result<(), NoMemory>
    ensures { OnOk result (out.new.items ≡ out.old.items ++ flat_map quoted_byte bytes.now) }
{
    for byte in bytes {
        push_quoted_byte(out, *byte)?;
    }
    Ok(())
}

// A quote stands twice.
fn push_quoted_byte(out: &mut Vec<u8>, byte: u8) -> Result<(), NoMemory>
    ensures { OnOk result (out.new.items ≡ out.old.items ++ quoted_byte byte) }
{
    if byte == QUOTE {
        push_byte(out, QUOTE)?;
    }
    push_byte(out, byte)
}

fn push_cast(out: &mut Vec<u8>, bytes: &[u8]) -> Result<(), NoMemory>
    ensures { OnOk result (out.new.items ≡ out.old.items ++ cast_to_text bytes.now) }
{
    push_bytes(out, b"UTL_RAW.CAST_TO_VARCHAR2(")?;
    push_raw(out, bytes)?;
    push_bytes(out, b")")
}

fn push_raw(out: &mut Vec<u8>, bytes: &[u8]) -> Result<(), NoMemory>
    ensures { OnOk result (out.new.items ≡ out.old.items ++ hex_to_raw bytes.now) }
{
    push_bytes(out, b"HEXTORAW('")?;
    push_hex(out, bytes)?;
    push_bytes(out, b"')")
}

fn push_hex(out: &mut Vec<u8>, bytes: &[u8]) -> Result<(), NoMemory>
    ensures { OnOk result (out.new.items ≡ out.old.items ++ hex bytes.now) }
{
    for byte in bytes {
        push_byte(out, hex_digit_of(*byte / 16))?;
        push_byte(out, hex_digit_of(*byte % 16))?;
    }
    Ok(())
}

fn hex_digit_of(n: u8) -> u8
    requires digit { n < 16 }
    ensures { result ≡ hex_digit n }
{
    if n < 10 { b'0' + n } else { b'A' + (n - 10) }
}

fn all_printed(bytes: &[u8]) -> bool
    ensures { result ≡ list_all is_printed bytes.now }
{
    bytes.iter().all(|byte| may_be_printed(*byte))
}

fn may_be_printed(byte: u8) -> bool
    ensures { result ≡ is_printed byte }
{
    byte >= b' ' && byte != DELETE
}
