//! Reads a line as a change vector.
//!
//! What each line says stands in specs/Reading.antt; the first fault from left to right is the one that is told.
ghost use Rattle.std.specs.Prelude.{◌≡◌, Ok, Err};
ghost use Rattle.rl_value.specs.declared.xid.Xid.{Xid};
ghost use Rattle.line_fields.specs.Given.{Gives};
ghost use Rattle.redo_lines.specs.Reading.{at_end, xid_alone, vector_of_words, vector_said, vector_of_line};

use crate::reading_changes::change_of;
use crate::reading_tables::definition_of;
use line_fields::{LineFault, ReadFault, is_word, split, xid_of};
use redo_vec::{Op, TableRow, Vector};
use rl_value::{Bytes, Xid};
use std::alloc::Global;

#[tactic(auto, unfolding(crate::specs::Reading::xid_alone))]
fn xid_alone(words: &[Bytes]) -> Result<Xid, LineFault>
    ensures { result ≡ xid_alone words.now }
{
    match words {
        [] => Err(LineFault::Words),
        [word, others @ ..] => {
            let xid = xid_of(word.bytes())?;
            if !others.is_empty() {
                return Err(LineFault::Words);
            }
            Ok(xid)
        }
    }
}

fn dictionary_end(words: &[Bytes]) -> Result<Vector, ReadFault>
    ensures { Gives (λ x. x) result (at_end words.now Vector.DictEnd) }
{
    match words {
        [] => Ok(Vector::DictEnd),
        [_, ..] => Err(ReadFault::Line(LineFault::Words)),
    }
}

/// The change vector that a keyword and the words behind it say, where these tables are known; or their first fault.
#[tactic(auto, unfolding(crate::specs::Reading::vector_of_words))]
pub fn vector_of_words(
    alloc: Global,
    tables: &[TableRow],
    keyword: &[u8],
    words: &[Bytes],
) -> Result<Vector, ReadFault>
    ensures read { Gives (λ x. x) result (vector_of_words tables.now keyword.now words.now) }
{
    if is_word(keyword, b"START") {
        return Ok(Vector::Start(xid_alone(words)?));
    }
    if is_word(keyword, b"INSERT") {
        return Ok(Vector::Change(change_of(alloc, tables, Op::Insert, words)?));
    }
    if is_word(keyword, b"UPDATE") {
        return Ok(Vector::Change(change_of(alloc, tables, Op::Update, words)?));
    }
    if is_word(keyword, b"DELETE") {
        return Ok(Vector::Change(change_of(alloc, tables, Op::Delete, words)?));
    }
    if is_word(keyword, b"UNDO") {
        return Ok(Vector::Undo(xid_alone(words)?));
    }
    if is_word(keyword, b"COMMIT") {
        return Ok(Vector::Commit(xid_alone(words)?));
    }
    if is_word(keyword, b"ROLLBACK") {
        return Ok(Vector::Rollback(xid_alone(words)?));
    }
    if is_word(keyword, b"TABLE") {
        return Ok(Vector::Table(definition_of(alloc, words)?));
    }
    if is_word(keyword, b"DICTEND") {
        return dictionary_end(words);
    }
    Err(ReadFault::Line(LineFault::Words))
}

#[tactic(auto, unfolding(crate::specs::Reading::vector_said))]
fn vector_of(alloc: Global, tables: &[TableRow], words: &[Bytes]) -> Result<Vector, ReadFault>
    ensures { Gives (λ x. x) result (vector_said tables.now words.now) }
{
    match words {
        [] => Err(ReadFault::Line(LineFault::Words)),
        [keyword, others @ ..] => vector_of_words(alloc, tables, keyword.bytes(), others),
    }
}

/// The change vector that a line says, where these tables are known; or the first fault of the line.
pub fn read_vector(alloc: Global, tables: &[TableRow], line: &[u8]) -> Result<Vector, ReadFault>
    ensures read { Gives (λ x. x) result (vector_of_line tables.now line.now) }
{
    let words = split(alloc, b' ', line)?;
    vector_of(alloc, tables, words.as_slice())
}
