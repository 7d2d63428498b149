//! Asks the tables behind a commit.
//!
//! How many rows match is known before the first of them is copied: more than may be answered cost no memory.
ghost use Rattle.std.specs.Prelude.{◌≡◌, IfOk, nat_lt};
ghost use Rattle.query_sessions.specs.Answers.{rows_in, row_of_key, matching, rows_within, count_within, answer_to, answer_of};

use crate::answer::{Answer, RowLines};
use crate::query::{Form, Query};
use crate::table_rows::{all_rows, count_rows, key_rows};
use rl_value::{NoMemory, Row};
use std::alloc::Global;
use table_store::{Tables, View};

fn is_over(most: u64, count: u64) -> bool
    ensures exact { result ≡ nat_lt most count }
{
    most < count
}

fn rows_within(rows: Vec<Row>, most: u64) -> Answer
    ensures exact { result ≡ rows_within most rows.items }
{
    let count = rows.len() as u64;
    if is_over(most, count) {
        return Answer::Many(count);
    }
    Answer::Rows(RowLines::of(rows))
}

fn count_within(count: u64, most: u64) -> Answer
    ensures exact { result ≡ count_within most count }
{
    if is_over(most, count) {
        return Answer::Many(count);
    }
    Answer::Count(count)
}

fn all_within(alloc: Global, tables: &Tables, table: u32, most: u64) -> Result<Answer, NoMemory>
    ensures exact { IfOk result (λ answer. answer ≡ rows_within most (rows_in tables.now.tables table)) }
{
    let count = count_rows(tables, table);
    if is_over(most, count) {
        return Ok(Answer::Many(count));
    }
    let rows = all_rows(alloc, tables, table, count)?;
    Ok(Answer::Rows(RowLines::of(rows)))
}

fn key_within(
    alloc: Global,
    tables: &Tables,
    table: u32,
    key: &Row,
    most: u64,
) -> Result<Answer, NoMemory>
    ensures exact { IfOk result (λ answer. answer ≡ rows_within most (row_of_key tables.now.tables table key.now)) }
{
    let rows = key_rows(alloc, tables, table, key)?;
    Ok(rows_within(rows, most))
}

fn answer_to(
    alloc: Global,
    tables: &Tables,
    table: u32,
    form: &Form,
    most: u64,
) -> Result<Answer, NoMemory>
    ensures exact { IfOk result (λ answer. answer ≡ answer_to form.now most (matching form.now tables.now.tables table)) }
{
    match form {
        Form::All => all_within(alloc, tables, table, most),
        Form::Count => Ok(count_within(count_rows(tables, table), most)),
        Form::Key(key) => key_within(alloc, tables, table, key, most),
    }
}

/// What the query is answered over the tables of the view, where at most so many rows may be. A table that is not maintained
/// is asked for its local rows, which the view has; one that is not there has no row.
pub fn ask(alloc: Global, view: &View, query: &Query, most: u64) -> Result<Answer, NoMemory>
    ensures exact { IfOk result (λ answer. answer ≡ answer_of view.now.tables.tables query.now most) }
{
    answer_to(alloc, &view.tables, query.table, &query.form, most)
}
