//! Reads the words of the command line.
//!
//! `fold SEQ` folds a log; SEQ is 1 to 4294967295 in decimal, without a sign or a leading zero.
//! Words that begin with `run`, `mine` or `load` are commands that are not built yet, whatever follows.
//! All other words are none of a command, and so are no words at all.
ghost use Rattle.std.specs.Prelude.{◌≡◌};
ghost use Rattle.rl_value.specs.Order.{same_bytes};
ghost use Rattle.standby.specs.Command.{fold_of, fold_with, is_later, command_of};

use crate::command::Command;
use rl_value::Bytes;
use script_words::sequence;

// `fold` with this one word behind it.
fn fold_command(word: &[u8]) -> Command
    ensures { result ≡ fold_of word.now }
{
    match sequence(word) {
        Some(seq) => Command::Fold(seq),
        None => Command::Wrong,
    }
}

fn is_word(word: &[u8], other: &[u8]) -> bool
    ensures { result ≡ same_bytes word.now other.now }
{
    word == other
}

fn is_later(word: &[u8]) -> bool
    ensures { result ≡ is_later word.now }
{
    is_word(word, b"run") || is_word(word, b"mine") || is_word(word, b"load")
}

// `fold` with these words behind it.
fn fold_with(words: &[Bytes]) -> Command
    ensures { result ≡ fold_with words.now }
{
    match words {
        [word] => fold_command(word.bytes()),
        _ => Command::Wrong,
    }
}

/// What the words, without the program's name, ask for.
pub fn command(words: &[Bytes]) -> Command
    ensures { result ≡ command_of words.now }
{
    match words {
        [] => Command::Wrong,
        [first, rest @ ..] => {
            if is_word(first.bytes(), b"fold") {
                fold_with(rest)
            } else if is_later(first.bytes()) {
                Command::Later
            } else {
                Command::Wrong
            }
        }
    }
}
