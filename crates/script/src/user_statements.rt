//! Reads the statements of users, each from the words behind its own: SESSION, QUERY and PUT.
ghost use Rattle.std.specs.Prelude.{◌≡◌};
ghost use Rattle.script_words.specs.Given.{Gives};
ghost use Rattle.script.specs.Statements.{session_of, query_asked, query_during, query_with, query_of, put_of};

use crate::fields::{form_of, table_of, values_of};
use crate::statement::Statement;
use rl_value::{Bytes, Scn};
use script_words::{WordsFault, is_word, name_of, of_64_bits};
use std::alloc::Global;

#[tactic(auto, unfolding(crate::specs::Statements::session_of))]
pub(crate) fn session_of(words: &[Bytes]) -> Result<Statement, WordsFault>
    ensures { Gives (λ x. x) result (session_of words.now) }
{
    match words {
        [name] => {
            let name = name_of(name.bytes()).ok_or(WordsFault::Grammar)?;
            Ok(Statement::Session(name))
        }
        _ => Err(WordsFault::Grammar),
    }
}

#[tactic(auto, unfolding(crate::specs::Statements::query_asked))]
fn query_asked(
    alloc: Global,
    session: &[u8],
    during: Option<Scn>,
    words: &[Bytes],
) -> Result<Statement, WordsFault>
    ensures { Gives (λ x. x) result (query_asked session.now during words.now) }
{
    match words {
        [] => Err(WordsFault::Grammar),
        [table, form @ ..] => {
            let session = name_of(session).ok_or(WordsFault::Grammar)?;
            let table = table_of(table.bytes()).ok_or(WordsFault::Grammar)?;
            let form = form_of(alloc, form)?;
            Ok(Statement::Query {
                session,
                during,
                table,
                form,
            })
        }
    }
}

#[tactic(auto, unfolding(crate::specs::Statements::query_during))]
fn query_during(alloc: Global, session: &[u8], words: &[Bytes]) -> Result<Statement, WordsFault>
    ensures { Gives (λ x. x) result (query_during session.now words.now) }
{
    match words {
        [] => Err(WordsFault::Grammar),
        [scn, others @ ..] => {
            let scn = of_64_bits(scn.bytes()).ok_or(WordsFault::Grammar)?;
            query_asked(alloc, session, Some(scn), others)
        }
    }
}

#[tactic(auto, unfolding(crate::specs::Statements::query_with))]
fn query_with(alloc: Global, session: &[u8], words: &[Bytes]) -> Result<Statement, WordsFault>
    ensures { Gives (λ x. x) result (query_with session.now words.now) }
{
    match words {
        [] => Err(WordsFault::Grammar),
        [word, others @ ..] => {
            if is_word(word.bytes(), b"DURING") {
                return query_during(alloc, session, others);
            }
            query_asked(alloc, session, None, words)
        }
    }
}

#[tactic(auto, unfolding(crate::specs::Statements::query_of))]
pub(crate) fn query_of(alloc: Global, words: &[Bytes]) -> Result<Statement, WordsFault>
    ensures { Gives (λ x. x) result (query_of words.now) }
{
    match words {
        [] => Err(WordsFault::Grammar),
        [session, others @ ..] => query_with(alloc, session.bytes(), others),
    }
}

#[tactic(auto, unfolding(crate::specs::Statements::put_of))]
pub(crate) fn put_of(alloc: Global, words: &[Bytes]) -> Result<Statement, WordsFault>
    ensures { Gives (λ x. x) result (put_of words.now) }
{
    match words {
        [session, table, values @ ..] => {
            let session = name_of(session.bytes()).ok_or(WordsFault::Grammar)?;
            let table = table_of(table.bytes()).ok_or(WordsFault::Grammar)?;
            let values = values_of(alloc, values)?;
            Ok(Statement::Put {
                session,
                table,
                values,
            })
        }
        _ => Err(WordsFault::Grammar),
    }
}
