//! Tables of the dictionary as they are put behind what is spelled so far: columns, keys, the table.
ghost use Rattle.std.specs.Prelude.{◌≡◌, ◌++◌, ◌∷◌, [], ◌<◌, ◌≤◌, length, OnOk, IsTrue};
ghost use Rattle.std.specs.List.{flat_map};
ghost use Rattle.redo_vec.specs.Spelling.{name, kind, column, key, keys, table, be16, be32};

use crate::columns::{Column, Columns, Kind};
use crate::encoding_fields::{put_short, put_u16, put_u32};
use crate::keys::{KeyColumns, KeyLists};
use crate::line30::Line30;
use crate::table::TableRow;
use std::alloc::AllocError;

fn put_name(out: &mut Vec<u8>, line: &Line30) -> Result<(), AllocError>
    ensures { OnOk result (out.new.items ≡ out.old.items ++ name line.now) }
{
    put_short(out, line.items())
}

fn put_sized(out: &mut Vec<u8>, tag: u8, size: u16) -> Result<(), AllocError>
    ensures { OnOk result (out.new.items ≡ out.old.items ++ tag ∷ be16 size) }
{
    out.push(tag)?;
    put_u16(out, size)
}

fn put_kind(out: &mut Vec<u8>, told: Kind) -> Result<(), AllocError>
    ensures { OnOk result (out.new.items ≡ out.old.items ++ kind told) }
{
    match told {
        Kind::Number => put_sized(out, 1, 0),
        Kind::Text(size) => put_sized(out, 2, size),
        Kind::Raw(size) => put_sized(out, 3, size),
    }
}

fn put_column(out: &mut Vec<u8>, told: &Column) -> Result<(), AllocError>
    ensures { OnOk result (out.new.items ≡ out.old.items ++ column told.now) }
{
    put_name(out, &told.name)?;
    put_kind(out, told.kind)?;
    Ok(out.push(if told.nullable { 1 } else { 0 })?)
}

fn put_each_column(out: &mut Vec<u8>, items: &[Column]) -> Result<(), AllocError>
    ensures { OnOk result (out.new.items ≡ out.old.items ++ flat_map column items.now) }
{
    for item in items {
        put_column(out, item)?;
    }
    Ok(())
}

fn put_columns(out: &mut Vec<u8>, list: &Columns) -> Result<(), AllocError>
    ensures { OnOk result (out.new.items ≡ out.old.items ++ length list.now ∷ flat_map column list.now) }
{
    let items = list.items();
    out.push(items.len() as u8)?;
    put_each_column(out, items)
}

fn put_key(out: &mut Vec<u8>, columns: &KeyColumns) -> Result<(), AllocError>
    ensures { OnOk result (out.new.items ≡ out.old.items ++ key columns.now) }
{
    put_short(out, columns.items())
}

fn put_each_key(out: &mut Vec<u8>, items: &[KeyColumns]) -> Result<(), AllocError>
    ensures { OnOk result (out.new.items ≡ out.old.items ++ flat_map key items.now) }
{
    for item in items {
        put_key(out, item)?;
    }
    Ok(())
}

fn put_uniques(out: &mut Vec<u8>, items: &[KeyColumns]) -> Result<(), AllocError>
    requires { length items.now ≤ 4 }
    ensures { OnOk result (out.new.items ≡ out.old.items ++ length items.now ∷ flat_map key items.now) }
{
    out.push(items.len() as u8)?;
    put_each_key(out, items)
}

fn put_keys(out: &mut Vec<u8>, list: &KeyLists) -> Result<(), AllocError>
    ensures { OnOk result (out.new.items ≡ out.old.items ++ keys list.now) }
{
    match list.items() {
        [] => Ok(()),
        [primary, uniques @ ..] => {
            put_key(out, primary)?;
            put_uniques(out, uniques)
        }
    }
}

fn put_names(out: &mut Vec<u8>, told: &TableRow) -> Result<(), AllocError>
    ensures { OnOk result (out.new.items ≡ out.old.items ++ (be32 told.now.id ++ name told.now.schema ++ name told.now.name)) }
{
    put_u32(out, told.id)?;
    put_name(out, &told.schema)?;
    put_name(out, &told.name)
}

/// The table with its id before it.
pub fn put_table(out: &mut Vec<u8>, told: &TableRow) -> Result<(), AllocError>
    ensures put { OnOk result (out.new.items ≡ out.old.items ++ (be32 told.now.id ++ table told.now)) }
{
    put_names(out, told)?;
    put_columns(out, &told.columns)?;
    put_keys(out, &told.keys)
}
