//! Prints a change vector as a line.
//!
//! What is printed is read as the same vector (`a_printed_vector_is_read`). specs/Printing.antt has the words.
ghost use Rattle.std.specs.Prelude.{◌≡◌, ◌∷◌, ◌++◌, [], IfOk, OnOk, codes};
ghost use Rattle.rl_value.specs.Literal.{xid_text};
ghost use Rattle.redo_lines.specs.Printing.{vector_words, line_of_vector};

use crate::printing_changes::change_words;
use crate::printing_tables::definition_words;
use line_fields::{copied, joined, push_part};
use redo_vec::{TableRow, Vector};
use rl_base::Line;
use rl_text::put_xid;
use rl_value::{Bytes, NoMemory, Xid};
use std::alloc::Global;

/// Puts a copy of a word behind the others.
pub fn put_keyword(alloc: Global, words: &mut Vec<Bytes>, word: &[u8]) -> Result<(), NoMemory>
    ensures put { OnOk result (words.new.items ≡ words.old.items ++ word.now ∷ []) }
{
    let copy = copied(alloc, word)?;
    push_part(words, copy)
}

/// Puts a transaction id.
pub(crate) fn put_id(alloc: Global, words: &mut Vec<Bytes>, xid: Xid) -> Result<(), NoMemory>
    ensures { OnOk result (words.new.items ≡ words.old.items ++ xid_text xid ∷ []) }
{
    let mut line = Line::new(alloc);
    put_xid(alloc, &mut line, xid)?;
    push_part(words, line.into_items())
}

fn xid_words(alloc: Global, keyword: &[u8], xid: Xid) -> Result<Vec<Bytes>, NoMemory>
    ensures { IfOk result (λ words. words.items ≡ keyword.now ∷ xid_text xid ∷ []) }
{
    let mut words = Vec::new(alloc);
    put_keyword(alloc, &mut words, keyword)?;
    put_id(alloc, &mut words, xid)?;
    Ok(words)
}

fn one_word(alloc: Global, keyword: &[u8]) -> Result<Vec<Bytes>, NoMemory>
    ensures { IfOk result (λ words. words.items ≡ keyword.now ∷ []) }
{
    let mut words = Vec::new(alloc);
    put_keyword(alloc, &mut words, keyword)?;
    Ok(words)
}

fn vector_words(alloc: Global, tables: &[TableRow], vector: &Vector) -> Result<Vec<Bytes>, NoMemory>
    ensures { IfOk result (λ words. words.items ≡ vector_words tables.now vector.now) }
{
    match vector {
        Vector::Start(xid) => xid_words(alloc, b"START", *xid),
        Vector::Change(change) => change_words(alloc, tables, change),
        Vector::Undo(xid) => xid_words(alloc, b"UNDO", *xid),
        Vector::Commit(xid) => xid_words(alloc, b"COMMIT", *xid),
        Vector::Rollback(xid) => xid_words(alloc, b"ROLLBACK", *xid),
        Vector::Table(table) => definition_words(alloc, table),
        Vector::DictEnd => one_word(alloc, b"DICTEND"),
    }
}

/// The line of a change vector, without its end, where these tables are known.
pub fn print_vector(
    alloc: Global,
    tables: &[TableRow],
    vector: &Vector,
) -> Result<Vec<u8>, NoMemory>
    ensures printed { IfOk result (λ line. line.items ≡ line_of_vector tables.now vector.now) }
{
    let words = vector_words(alloc, tables, vector)?;
    joined(alloc, b' ', words.as_slice())
}
