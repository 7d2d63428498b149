//! Reads a line's text as a statement: its first word says which one.
ghost use Rattle.std.specs.Prelude.{◌≡◌};
ghost use Rattle.script_words.specs.Given.{Gives};
ghost use Rattle.script.specs.Lines.{is_passed, said_of_line};
ghost use Rattle.script.specs.Statements.{user_statement, statement_with, statement_of_words, statement_of};

use crate::run_statements::{apply_of, check_of, replay_of, view_statement_of};
use crate::standby_statements::{
    create_of, group_of, guard_of, mark_of, register_of, row_of, skip_of,
};
use crate::statement::Statement;
use crate::user_statements::{put_of, query_of, session_of};
use rl_value::Bytes;
use script_words::{WordsFault, is_word, words_of};
use std::alloc::Global;

#[tactic(auto, unfolding(crate::specs::Statements::user_statement))]
fn user_statement(alloc: Global, word: &[u8], words: &[Bytes]) -> Result<Statement, WordsFault>
    ensures { Gives (λ x. x) result (user_statement word.now words.now) }
{
    if is_word(word, b"SESSION") {
        return session_of(words);
    }
    if is_word(word, b"QUERY") {
        return query_of(alloc, words);
    }
    if is_word(word, b"PUT") {
        return put_of(alloc, words);
    }
    if is_word(word, b"APPLY") {
        return apply_of(words);
    }
    if is_word(word, b"REPLAY") {
        return replay_of(alloc, words);
    }
    if is_word(word, b"VIEW") {
        return view_statement_of(words);
    }
    if is_word(word, b"CHECK") {
        return check_of(words);
    }
    Err(WordsFault::Grammar)
}

#[tactic(auto, unfolding(crate::specs::Statements::statement_with))]
fn statement_with(alloc: Global, word: &[u8], words: &[Bytes]) -> Result<Statement, WordsFault>
    ensures { Gives (λ x. x) result (statement_with word.now words.now) }
{
    if is_word(word, b"CREATE") {
        return create_of(words);
    }
    if is_word(word, b"ROW") {
        return row_of(alloc, words);
    }
    if is_word(word, b"REGISTER") {
        return register_of(words);
    }
    if is_word(word, b"SKIP") {
        return skip_of(alloc, words);
    }
    if is_word(word, b"GUARD") {
        return guard_of(words);
    }
    if is_word(word, b"MARK") {
        return mark_of(words);
    }
    if is_word(word, b"GROUP") {
        return group_of(words);
    }
    user_statement(alloc, word, words)
}

#[tactic(auto, unfolding(crate::specs::Statements::statement_of_words))]
fn statement_of_words(alloc: Global, words: &[Bytes]) -> Result<Statement, WordsFault>
    ensures { Gives (λ x. x) result (statement_of_words words.now) }
{
    match words {
        [] => Err(WordsFault::Grammar),
        [word, others @ ..] => statement_with(alloc, word.bytes(), others),
    }
}

#[tactic(auto, unfolding(crate::specs::Statements::statement_of))]
fn statement_of(alloc: Global, line: &[u8]) -> Result<Statement, WordsFault>
    ensures { Gives (λ x. x) result (statement_of line.now) }
{
    let words = words_of(alloc, line)?;
    statement_of_words(alloc, words.as_slice())
}

fn is_passed(text: &[u8]) -> bool
    ensures { result ≡ is_passed text.now }
{
    match text {
        [] => true,
        [first, ..] => *first == b'#',
    }
}

/// The statement of a line without its end, or None where it is passed over. `room` says that there may be one more.
#[tactic(auto, unfolding(crate::specs::Lines::said_of_line))]
pub(crate) fn said_of_line(
    alloc: Global,
    room: bool,
    text: &[u8],
) -> Result<Option<Statement>, WordsFault>
    ensures { Gives (λ x. x) result (said_of_line room text.now) }
{
    if is_passed(text) {
        return Ok(None);
    }
    if !room {
        return Err(WordsFault::Grammar);
    }
    Ok(Some(statement_of(alloc, text)?))
}
