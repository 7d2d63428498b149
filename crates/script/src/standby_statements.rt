//! Reads the statements that say what the standby is and what it passes over, each from the words behind its own.
ghost use Rattle.std.specs.Prelude.{◌≡◌};
ghost use Rattle.std.specs.List.{list_all};
ghost use Rattle.rl_base.specs.Lines.{is_inside, is_line};
ghost use Rattle.script_words.specs.Given.{Gives};
ghost use Rattle.script.specs.Statements.{level_of, create_of, row_of, register_of, skip_table, skip_of, guard_of, mark_of, group_of};

use crate::fields::{table_of, values_of};
use crate::statement::Statement;
use rl_base::{LF, Line};
use rl_value::Bytes;
use script_words::{WordsFault, is_word, of_32_bits, sequence, u8_in, u32_in, xid_of};
use skip_guard::Level;
use std::alloc::Global;

#[tactic(auto, unfolding(crate::specs::Statements::create_of))]
pub(crate) fn create_of(words: &[Bytes]) -> Result<Statement, WordsFault>
    ensures { Gives (λ x. x) result (create_of words.now) }
{
    match words {
        [dbid, seq] => {
            let dbid = of_32_bits(dbid.bytes()).ok_or(WordsFault::Grammar)?;
            let seq = sequence(seq.bytes()).ok_or(WordsFault::Grammar)?;
            Ok(Statement::Create { dbid, seq })
        }
        _ => Err(WordsFault::Grammar),
    }
}

#[tactic(auto, unfolding(crate::specs::Statements::row_of))]
pub(crate) fn row_of(alloc: Global, words: &[Bytes]) -> Result<Statement, WordsFault>
    ensures { Gives (λ x. x) result (row_of words.now) }
{
    match words {
        [] => Err(WordsFault::Grammar),
        [table, values @ ..] => {
            let table = table_of(table.bytes()).ok_or(WordsFault::Grammar)?;
            let values = values_of(alloc, values)?;
            Ok(Statement::Row { table, values })
        }
    }
}

#[tactic(auto, unfolding(crate::specs::Statements::register_of))]
pub(crate) fn register_of(words: &[Bytes]) -> Result<Statement, WordsFault>
    ensures { Gives (λ x. x) result (register_of words.now) }
{
    match words {
        [seq] => {
            let seq = sequence(seq.bytes()).ok_or(WordsFault::Grammar)?;
            Ok(Statement::Register(seq))
        }
        _ => Err(WordsFault::Grammar),
    }
}

fn is_inside(byte: u8) -> bool
    ensures { result ≡ is_inside byte }
{
    byte != LF
}

fn is_line(word: &[u8]) -> bool
    ensures { result ≡ is_line word.now }
{
    word.iter().all(|byte| is_inside(*byte))
}

// The word itself: whether it is a pattern is asked when the statement is done.
fn skip_table(alloc: Global, pattern: &[u8]) -> Result<Statement, WordsFault>
    ensures { Gives (λ x. x) result (skip_table pattern.now) }
{
    if !is_line(pattern) {
        return Err(WordsFault::Grammar);
    }
    let bytes = Vec::from_slice(alloc, pattern)?;
    Ok(Statement::SkipTable(Line::of(bytes)))
}

#[tactic(auto, unfolding(crate::specs::Statements::skip_of))]
pub(crate) fn skip_of(alloc: Global, words: &[Bytes]) -> Result<Statement, WordsFault>
    ensures { Gives (λ x. x) result (skip_of words.now) }
{
    match words {
        [what, which] => {
            if is_word(what.bytes(), b"TABLE") {
                return skip_table(alloc, which.bytes());
            }
            if is_word(what.bytes(), b"TRANSACTION") {
                let xid = xid_of(which.bytes()).ok_or(WordsFault::Grammar)?;
                return Ok(Statement::SkipTransaction(xid));
            }
            Err(WordsFault::Grammar)
        }
        _ => Err(WordsFault::Grammar),
    }
}

fn level_of(word: &[u8]) -> Option<Level>
    ensures { result ≡ level_of word.now }
{
    if is_word(word, b"ALL") {
        return Some(Level::All);
    }
    if is_word(word, b"STANDBY") {
        return Some(Level::Standby);
    }
    None
}

#[tactic(auto, unfolding(crate::specs::Statements::guard_of))]
pub(crate) fn guard_of(words: &[Bytes]) -> Result<Statement, WordsFault>
    ensures { Gives (λ x. x) result (guard_of words.now) }
{
    match words {
        [level] => {
            let level = level_of(level.bytes()).ok_or(WordsFault::Grammar)?;
            Ok(Statement::Guard(level))
        }
        _ => Err(WordsFault::Grammar),
    }
}

#[tactic(auto, unfolding(crate::specs::Statements::mark_of))]
pub(crate) fn mark_of(words: &[Bytes]) -> Result<Statement, WordsFault>
    ensures { Gives (λ x. x) result (mark_of words.now) }
{
    match words {
        [distance] => {
            let distance = u32_in(1, 10000, distance.bytes()).ok_or(WordsFault::Grammar)?;
            Ok(Statement::Mark(distance))
        }
        _ => Err(WordsFault::Grammar),
    }
}

#[tactic(auto, unfolding(crate::specs::Statements::group_of))]
pub(crate) fn group_of(words: &[Bytes]) -> Result<Statement, WordsFault>
    ensures { Gives (λ x. x) result (group_of words.now) }
{
    match words {
        [count] => {
            let count = u8_in(1, 64, count.bytes()).ok_or(WordsFault::Grammar)?;
            Ok(Statement::Group(count))
        }
        _ => Err(WordsFault::Grammar),
    }
}
