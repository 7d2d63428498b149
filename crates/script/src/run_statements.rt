//! Reads the statements of runs and views, each from the words behind its own: APPLY, REPLAY, VIEW and CHECK.
ghost use Rattle.std.specs.Prelude.{◌≡◌};
ghost use Rattle.script_words.specs.Given.{Gives};
ghost use Rattle.script.specs.Statements.{view_of, apply_of, replay_of, view_statement_of, check_of};

use crate::events::events_of;
use crate::settings::{settings_of, workers};
use crate::statement::Statement;
use rl_base::Which;
use rl_value::Bytes;
use script_words::{WordsFault, is_word};
use std::alloc::Global;

#[tactic(auto, unfolding(crate::specs::Statements::apply_of))]
pub(crate) fn apply_of(words: &[Bytes]) -> Result<Statement, WordsFault>
    ensures { Gives (λ x. x) result (apply_of words.now) }
{
    match words {
        [preparers, appliers, others @ ..] => {
            let preparers = workers(preparers.bytes()).ok_or(WordsFault::Grammar)?;
            let appliers = workers(appliers.bytes()).ok_or(WordsFault::Grammar)?;
            let settings = settings_of(appliers, others).ok_or(WordsFault::Grammar)?;
            if !settings.rest.is_empty() {
                return Err(WordsFault::Grammar);
            }
            Ok(Statement::Apply {
                preparers,
                appliers,
                cache: settings.cache,
                eager: settings.eager,
            })
        }
        _ => Err(WordsFault::Grammar),
    }
}

#[tactic(auto, unfolding(crate::specs::Statements::replay_of))]
pub(crate) fn replay_of(alloc: Global, words: &[Bytes]) -> Result<Statement, WordsFault>
    ensures { Gives (λ x. x) result (replay_of words.now) }
{
    match words {
        [] => Err(WordsFault::Grammar),
        [appliers, others @ ..] => {
            let appliers = workers(appliers.bytes()).ok_or(WordsFault::Grammar)?;
            let settings = settings_of(appliers, others).ok_or(WordsFault::Grammar)?;
            let events = events_of(alloc, settings.rest)?;
            Ok(Statement::Replay {
                appliers,
                cache: settings.cache,
                eager: settings.eager,
                events,
            })
        }
    }
}

fn view_of(word: &[u8]) -> Option<Which>
    ensures { result ≡ view_of word.now }
{
    if is_word(word, b"PROGRESS") {
        return Some(Which::Progress);
    }
    if is_word(word, b"LOG") {
        return Some(Which::Log);
    }
    if is_word(word, b"STATE") {
        return Some(Which::State);
    }
    if is_word(word, b"SKIP") {
        return Some(Which::Skip);
    }
    if is_word(word, b"EVENTS") {
        return Some(Which::Events);
    }
    None
}

#[tactic(auto, unfolding(crate::specs::Statements::view_statement_of))]
pub(crate) fn view_statement_of(words: &[Bytes]) -> Result<Statement, WordsFault>
    ensures { Gives (λ x. x) result (view_statement_of words.now) }
{
    match words {
        [which] => {
            let which = view_of(which.bytes()).ok_or(WordsFault::Grammar)?;
            Ok(Statement::View(which))
        }
        _ => Err(WordsFault::Grammar),
    }
}

#[tactic(auto, unfolding(crate::specs::Statements::check_of))]
pub(crate) fn check_of(words: &[Bytes]) -> Result<Statement, WordsFault>
    ensures { Gives (λ x. x) result (check_of words.now) }
{
    match words {
        [] => Ok(Statement::Check),
        [_, ..] => Err(WordsFault::Grammar),
    }
}
