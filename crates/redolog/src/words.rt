//! The words of the command line: one, which is a command (specs/Words.antt).
ghost use Rattle.std.specs.Prelude.{◌≡◌};
ghost use Rattle.redolog.specs.Words.{command_in};

use redo_lines::is_word;
use std::env::Env;

/// What the words ask.
#[derive(Clone, Copy, Debug, PartialEq, Eq)]
pub enum Command {
    Write,
    Show,
    Head,
    /// None of these.
    Wrong,
}

// No command has more bytes.
const LONGEST: usize = 8;

fn command_in(word: &[u8]) -> Command
    ensures { result ≡ command_in word.now }
{
    if is_word(word, b"write") {
        return Command::Write;
    }
    if is_word(word, b"show") {
        return Command::Show;
    }
    if is_word(word, b"head") {
        return Command::Head;
    }
    Command::Wrong
}

/// What the one word behind the program's name asks.
pub fn command_of<E: Env>(env: &E) -> Command {
    let mut word = [0u8; LONGEST];
    let mut other = [0u8; 1];
    let Ok(count) = env.arg(1, &mut word) else {
        return Command::Wrong;
    };
    // A second word, also one that does not fit, is one too many.
    match env.arg(2, &mut other) {
        Err(std::env::FillError::NotPresent) => command_in(&word[..count]),
        _ => Command::Wrong,
    }
}
