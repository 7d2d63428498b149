//! Reads the fields of statements: tables, values, and which rows a query asks for.
ghost use Rattle.std.specs.Prelude.{◌≡◌, map};
ghost use Rattle.rl_value.specs.Outcome.{all_of};
ghost use Rattle.script_words.specs.Given.{Gives};
ghost use Rattle.script.specs.Fields.{table_of, value_said, values_of, form_of_one, form_of_key, form_of};

use crate::statement::{Asked, TableName};
use crate::values::Values;
use rl_text::read_value;
use rl_value::{Bytes, Value};
use script_words::{WordsFault, cut_at, is_word, name_of};
use std::alloc::Global;

const DOT: u8 = b'.';

/// A table: two names with a dot between.
#[tactic(auto, unfolding(crate::specs::Fields::table_of))]
pub(crate) fn table_of(word: &[u8]) -> Option<TableName>
    ensures { result ≡ table_of word.now }
{
    let (schema, name) = cut_at(DOT, word);
    let schema = name_of(schema)?;
    let name = name_of(name?)?;
    Some(TableName { schema, name })
}

#[tactic(auto, unfolding(crate::specs::Fields::value_said))]
fn value_of(alloc: Global, word: &[u8]) -> Result<Value, WordsFault>
    ensures { Gives (λ x. x) result (value_said word.now) }
{
    match read_value(alloc, word)? {
        Some(value) => Ok(value),
        None => Err(WordsFault::Grammar),
    }
}

fn value_list(alloc: Global, words: &[Bytes]) -> Result<Vec<Value>, WordsFault>
    ensures { Gives (λ values. values.items) result (all_of (map value_said words.now)) }
{
    let mut values = Vec::new(alloc);
    let mut rest = words;
    while let [word, others @ ..] = rest {
        let value = value_of(alloc, word.bytes())?;
        values.push(value)?;
        rest = others;
    }
    Ok(values)
}

/// One or more literals.
#[tactic(auto, unfolding(crate::specs::Fields::values_of))]
pub(crate) fn values_of(alloc: Global, words: &[Bytes]) -> Result<Values, WordsFault>
    ensures { Gives (λ x. x) result (values_of words.now) }
{
    let values = value_list(alloc, words)?;
    if values.is_empty() {
        return Err(WordsFault::Grammar);
    }
    Ok(Values::of(values))
}

fn form_of_one(word: &[u8]) -> Option<Asked>
    ensures { result ≡ form_of_one word.now }
{
    if is_word(word, b"ALL") {
        return Some(Asked::All);
    }
    if is_word(word, b"COUNT") {
        return Some(Asked::Count);
    }
    None
}

fn form_of_key(alloc: Global, word: &[u8], values: &[Bytes]) -> Result<Asked, WordsFault>
    ensures { Gives (λ x. x) result (form_of_key word.now values.now) }
{
    if !is_word(word, b"KEY") {
        return Err(WordsFault::Grammar);
    }
    Ok(Asked::Key(values_of(alloc, values)?))
}

/// Which rows a query asks for.
#[tactic(auto, unfolding(crate::specs::Fields::form_of))]
pub(crate) fn form_of(alloc: Global, words: &[Bytes]) -> Result<Asked, WordsFault>
    ensures { Gives (λ x. x) result (form_of words.now) }
{
    match words {
        [] => Err(WordsFault::Grammar),
        [word] => form_of_one(word.bytes()).ok_or(WordsFault::Grammar),
        [word, values @ ..] => form_of_key(alloc, word.bytes(), values),
    }
}
