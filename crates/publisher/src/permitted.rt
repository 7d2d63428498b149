//! What callers ask before they put a row: whether it fits its table, and whether users may write the table.
ghost use Rattle.std.specs.Prelude.{◌↔◌, IsTrue};
ghost use Rattle.checkpoint.specs.Images.{image_state};
ghost use Rattle.publisher.specs.Parts.{FitsTable, IsLocal};

use checkpoint::Image;
use rl_value::Row;
use skip_guard::allowed;
use table_store::Tables;

/// Whether the table is there, and the row fits it.
pub(crate) fn fits_table(tables: &Tables, id: u32, row: &Row) -> bool
    ensures exact { IsTrue result ↔ FitsTable tables.now.tables id row.now }
{
    let dict = tables.dict();
    match dict.def(id) {
        None => false,
        Some(_) => dict.check_row(id, row),
    }
}

/// Whether the guard lets users write the table, where it is there.
pub(crate) fn is_local(image: &Image, id: u32) -> bool
    ensures exact { IsTrue result ↔ IsLocal id (image_state image.now) }
{
    let dict = image.tables.dict();
    let maintained = dict.def(id).is_some() && !image.skips.table_skipped(dict, id, image.n);
    allowed(image.level, maintained)
}
