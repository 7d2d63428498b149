//! Where a table stands among tables whose ids rise.
ghost use Rattle.std.specs.Prelude.{◌≡◌, ◌≤◌, ◌&&◌, IsTrue, OnOk, OnErr, IfErr, length, nat_lt, true, false, Option, Some, None};
ghost use Rattle.std.specs.List.Sorted.{IsPartitionPoint};
ghost use Rattle.std.specs.Option.{option_copied};
ghost use Rattle.rl_value.specs.Order.{same_bytes};
ghost use Rattle.redo_spec.specs.Dictionary.{ids_rise, table_of, id_of, same_table, with_table, has_bad_keys};
ghost use Rattle.std.specs.List.{list_any};
ghost use Rattle.redo_dict.specs.Found.{if_of_id};

use crate::table_form::same;
use redo_vec::TableRow;

fn is_below(table: &TableRow, id: u32) -> bool
    ensures { result ≡ nat_lt table.now.id id }
{
    table.id < id
}

/// The index of the first table whose id is not below this one, or the number of tables.
#[tactic(auto, using(crate::proofs::Rising::partitioned))]
pub fn place_of(tables: &[TableRow], id: u32) -> usize
    requires { IsTrue (ids_rise 0 tables.now) }
    ensures bound { result ≤ length tables.now }
    ensures between { IsPartitionPoint (λ t. nat_lt t.id id ≡ true) (λ t. nat_lt t.id id ≡ false) tables.now result }
{
    tables.partition_point(|table| is_below(table, id))
}

fn table_if_of_id(table: &TableRow, id: u32) -> Option<&TableRow>
    ensures { option_copied result ≡ if_of_id id (Some table.now) }
{
    if table.id == id { Some(table) } else { None }
}

/// The table of this id.
pub fn table_at(tables: &[TableRow], id: u32) -> Option<&TableRow>
    requires { IsTrue (ids_rise 0 tables.now) }
    ensures { option_copied result ≡ table_of tables.now id }
{
    match tables.get(place_of(tables, id)) {
        Some(table) => table_if_of_id(table, id),
        None => None,
    }
}

fn is_named(table: &TableRow, schema: &[u8], name: &[u8]) -> bool
    ensures { result ≡ (same_bytes table.now.schema schema.now && same_bytes table.now.name name.now) }
{
    same(table.schema.items(), schema) && same(table.name.items(), name)
}

/// The id of the table of this schema and name.
pub fn id_at(tables: &[TableRow], schema: &[u8], name: &[u8]) -> Option<u32>
    ensures { result ≡ id_of tables.now schema.now name.now }
{
    match tables.iter().find(|table| is_named(table, schema, name)) {
        Some(table) => Some(table.id),
        None => None,
    }
}

/// Puts a new table where it goes. Where memory is refused it comes back, and the others stay as they were.
#[tactic(auto, using(crate::proofs::Rising::inserted_at, crate::proofs::Rising::rises_with, crate::proofs::Keys::keys_with))]
pub fn insert_table(tables: &mut Vec<TableRow>, table: TableRow) -> Result<(), TableRow>
    requires rising { IsTrue (ids_rise 0 tables.old.items) }
    requires other { list_any (same_table table) tables.old.items ≡ false }
    requires keys { (list_any has_bad_keys tables.old.items ≡ false) × (has_bad_keys table ≡ false) }
    ensures placed { OnOk result (tables.new.items ≡ with_table table tables.old.items) }
    ensures rising { OnOk result (IsTrue (ids_rise 0 tables.new.items)) }
    ensures keys { OnOk result (list_any has_bad_keys tables.new.items ≡ false) }
    ensures unchanged { OnErr result (tables.new.items ≡ tables.old.items) }
    ensures back { IfErr result (λ back. back ≡ table) }
{
    let place = place_of(tables.as_slice(), table.id);
    match tables.insert(place, table) {
        Ok(()) => Ok(()),
        Err(failed) => Err(failed.value),
    }
}
