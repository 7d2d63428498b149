//! Rows in order: the pairs of a keeper in memory, by area and key, each place once.
//!
//! A place is found by halving. A row is put in or taken out by moving those behind it, so a change takes time in
//! proportion to the rows behind its place.

ghost use Rattle.std.specs.Prelude.{◌≡◌, ◌≤◌, ◌<◌, ◌+◌, length, drop, List, ℕ, IfOk, IsTrue, not, vec_len, vec_capacity};
ghost use Rattle.std.specs.Option.{option_map};
ghost use Rattle.std.specs.Ordering.{is_lt};
ghost use Rattle.rl_ports.specs.Store.{Store, place_cmp, same_place, is_store, is_key, key_of, have_keys, after_item, after_batch, next_pair};
ghost use Rattle.rl_ports.specs.declared.batch.Item.TheVariants.{Put as PutItem, Drop as DropItem};
ghost use Rattle.rl_mem.specs.Places.{IsSpot, IsFree, IsNext, first_is, first_in};

use rl_ports::{Item, Pair};
use rl_value::{Bytes, NoMemory};
use std::cmp::Ordering;

/// A pair with its place: the area and the key, and then the value.
pub type Row = ((u8, Bytes), Bytes);

/// Does the items in their order. There is room for a row more for each of them, so no memory is taken.
pub fn do_items(rows: &mut Vec<Row>, items: Vec<Item>)
    requires room { vec_len rows.old + vec_len items ≤ vec_capacity rows.old }
    requires store { IsTrue (is_store rows.old.items) }
    requires keys { IsTrue (have_keys items.items) }
    ensures done { rows.new.items ≡ after_batch items.items rows.old.items }
    ensures store { IsTrue (is_store rows.new.items) }
{
    for item in items {
        do_item(rows, item);
    }
}

fn do_item(rows: &mut Vec<Row>, item: Item)
    requires room { vec_len rows.old < vec_capacity rows.old }
    requires store { IsTrue (is_store rows.old.items) }
    ensures done { rows.new.items ≡ after_item item rows.old.items }
    ensures size { vec_len rows.new ≤ vec_len rows.old + 1 }
    ensures room { vec_capacity rows.old ≤ vec_capacity rows.new }
{
    match item {
        Item::Put { area, key, value } => put_row(rows, area, key, value),
        Item::Drop { area, key } => {
            let _ = drop_row(rows, area, key.bytes());
        }
    }
}

fn put_row(rows: &mut Vec<Row>, area: u8, key: Bytes, value: Bytes)
    requires room { vec_len rows.old < vec_capacity rows.old }
    requires store { IsTrue (is_store rows.old.items) }
    ensures done { rows.new.items ≡ after_item (PutItem area key value) rows.old.items }
    ensures size { vec_len rows.new ≤ vec_len rows.old + 1 }
    ensures room { vec_capacity rows.old ≤ vec_capacity rows.new }
{
    let at = drop_row(rows, area, key.bytes());
    match rows.insert(at, ((area, key), value)) {
        Ok(()) => {}
        Err(_) => unreachable!(),
    }
}

/// Drops the row at this place, if there is one, and gives the index at which such a row would stand.
fn drop_row(rows: &mut Vec<Row>, area: u8, key: &[u8]) -> usize
    requires store { IsTrue (is_store rows.old.items) }
    ensures done { rows.new.items ≡ after_item (DropItem area key.now) rows.old.items }
    ensures gap { IsFree place_cmp result (area, key.now) rows.new.items }
    ensures within { result ≤ vec_len rows.new }
    ensures size { vec_len rows.new ≤ vec_len rows.old }
    ensures room { vec_capacity rows.new ≡ vec_capacity rows.old }
{
    let at = place_of(rows, area, key);
    if !stands_at(rows, at, area, key) {
        return at;
    }
    let _ = rows.remove(at);
    at
}

fn stands_at(rows: &[Row], at: usize, area: u8, key: &[u8]) -> bool
    requires within { at ≤ length rows.now }
    ensures there { result ≡ first_is (λ e. same_place e.0 (area, key.now)) (drop at rows.now) }
    ensures some { IsTrue result → at < length rows.now }
{
    let (_, rest) = rows.split_at(at);
    match rest {
        [] => false,
        [row, ..] => row.0.0 == area && row.0.1.bytes() == key,
    }
}

/// How many rows stand before this place.
fn place_of(rows: &[Row], area: u8, key: &[u8]) -> usize
    requires store { IsTrue (is_store rows.now) }
    ensures within { result ≤ length rows.now }
    ensures spot { IsSpot place_cmp result (area, key.now) rows.now }
{
    rows.partition_point(|row| is_before(row, area, key))
}

fn is_before(row: &Row, area: u8, key: &[u8]) -> bool
    ensures { result ≡ is_lt (place_cmp row.now.0 (area, key.now)) }
{
    match row.0.0.cmp(&area) {
        Ordering::Less => true,
        Ordering::Equal => row.0.1.bytes().cmp(&key) == Ordering::Less,
        Ordering::Greater => false,
    }
}

/// The pair of the least key of the area above this one.
pub fn pair_after(rows: &[Row], area: u8, key: &[u8]) -> Result<Option<Pair>, NoMemory>
    requires store { IsTrue (is_store rows.now) }
    ensures { IfOk result (λ found. option_map (λ p. ((area, p.key), p.value)) found ≡ next_pair area key.now rows.now) }
{
    let at = next_of(rows, area, key);
    let (_, rest) = rows.split_at(at);
    first_pair(rest, area)
}

fn first_pair(rest: &[Row], area: u8) -> Result<Option<Pair>, NoMemory>
    ensures { IfOk result (λ found. option_map (λ p. ((area, p.key), p.value)) found ≡ first_in area rest.now) }
{
    match rest {
        [] => Ok(None),
        [row, ..] => {
            if row.0.0 != area {
                return Ok(None);
            }
            let key = row.0.1.copy()?;
            let value = row.1.copy()?;
            Ok(Some(Pair { key, value }))
        }
    }
}

/// How many rows stand at this place or before it.
fn next_of(rows: &[Row], area: u8, key: &[u8]) -> usize
    requires store { IsTrue (is_store rows.now) }
    ensures within { result ≤ length rows.now }
    ensures next { IsNext place_cmp result (area, key.now) rows.now }
{
    rows.partition_point(|row| is_not_behind(row, area, key))
}

fn is_not_behind(row: &Row, area: u8, key: &[u8]) -> bool
    ensures { result ≡ not (is_lt (place_cmp (area, key.now) row.now.0)) }
{
    match area.cmp(&row.0.0) {
        Ordering::Less => false,
        Ordering::Equal => key.cmp(&row.0.1.bytes()) != Ordering::Less,
        Ordering::Greater => true,
    }
}
