//! Changes of rows as they are put behind what is spelled so far: values, cells, the change.
ghost use Rattle.std.specs.Prelude.{◌≡◌, ◌++◌, ◌∷◌, ◌<◌, ◌≤◌, length, OnOk, IsTrue};
ghost use Rattle.std.specs.List.{flat_map};
ghost use Rattle.redo_vec.specs.Spelling.{value, cell, cells, op, change, xid, be32};

use crate::change::{Change, Op};
use crate::encoding_fields::{put_content, put_u32, put_u64, put_xid};
use rl_value::{Cells, Value, Xid};
use std::alloc::AllocError;

/// A value.
pub fn put_value(out: &mut Vec<u8>, item: &Value) -> Result<(), AllocError>
    ensures put { OnOk result (out.new.items ≡ out.old.items ++ value item.now) }
{
    match item {
        Value::Null => Ok(out.push(0)?),
        Value::Number(number) => {
            out.push(1)?;
            put_u64(out, number.cast_unsigned())
        }
        Value::Text(text) => put_content(out, 2, text.bytes()),
        Value::Raw(raw) => put_content(out, 3, raw.bytes()),
    }
}

fn put_cell(out: &mut Vec<u8>, column: u8, item: &Value) -> Result<(), AllocError>
    ensures { OnOk result (out.new.items ≡ out.old.items ++ cell (column, item.now)) }
{
    out.push(column)?;
    put_value(out, item)
}

fn put_each(out: &mut Vec<u8>, items: &[(u8, Value)]) -> Result<(), AllocError>
    ensures { OnOk result (out.new.items ≡ out.old.items ++ flat_map cell items.now) }
{
    for item in items {
        put_cell(out, item.0, &item.1)?;
    }
    Ok(())
}

fn put_cells(out: &mut Vec<u8>, list: &Cells) -> Result<(), AllocError>
    ensures { OnOk result (out.new.items ≡ out.old.items ++ cells list.now) }
{
    let items = list.cells();
    out.push(items.len() as u8)?;
    put_each(out, items)
}

fn code(kind: Op) -> u8
    ensures { result ≡ op kind }
{
    match kind {
        Op::Insert => 2,
        Op::Update => 3,
        Op::Delete => 4,
    }
}

fn put_head(out: &mut Vec<u8>, kind: Op, id: Xid, table: u32) -> Result<(), AllocError>
    ensures { OnOk result (out.new.items ≡ out.old.items ++ (op kind ∷ xid id ++ be32 table)) }
{
    out.push(code(kind))?;
    put_xid(out, id)?;
    put_u32(out, table)
}

/// A change, as a vector.
pub fn put_change(out: &mut Vec<u8>, told: &Change) -> Result<(), AllocError>
    ensures put { OnOk result (out.new.items ≡ out.old.items ++ change told.now) }
{
    put_head(out, told.op, told.xid, told.table)?;
    put_cells(out, &told.old)?;
    put_cells(out, &told.new)
}
