//! Lines that are made of words with one space between.
ghost use Rattle.std.specs.Prelude.{◌≡◌, ◌++◌, ◌∷◌, [], IsTrue, IfOk, OnOk};
ghost use Rattle.std.specs.Fmt.{decimal};
ghost use Rattle.rl_base.specs.Lines.{is_line};
ghost use Rattle.redo_spec.specs.Lines.{words};
ghost use Rattle.view_lines.specs.Views.{numbered};

use rl_base::{Line, Lines};
use rl_value::NoMemory;
use std::alloc::Global;

// Puts a number at the end of the line.
fn put_decimal(alloc: Global, line: &mut Line, number: u64) -> Result<(), NoMemory>
    ensures { OnOk result (line.new ≡ line.old ++ decimal number) }
{
    let Ok(digits) = format!(in alloc; "{number}") else {
        return Err(NoMemory);
    };
    line.extend(digits.as_bytes())
}

/// Puts a space and a number at the end of the line.
pub(crate) fn put_number(alloc: Global, line: &mut Line, number: u64) -> Result<(), NoMemory>
    ensures put { OnOk result (line.new ≡ line.old ++ 32 ∷ decimal number) }
{
    line.push(b' ')?;
    put_decimal(alloc, line, number)
}

/// Puts a space and a word at the end of the line.
pub(crate) fn put_word(line: &mut Line, word: &[u8]) -> Result<(), NoMemory>
    requires line { IsTrue (is_line word.now) }
    ensures put { OnOk result (line.new ≡ line.old ++ 32 ∷ word.now) }
{
    line.push(b' ')?;
    line.extend(word)
}

/// A line of this word.
pub(crate) fn word_line(alloc: Global, word: &[u8]) -> Result<Line, NoMemory>
    requires line { IsTrue (is_line word.now) }
    ensures exact { IfOk result (λ line. line ≡ word.now) }
{
    let mut line = Line::new(alloc);
    line.extend(word)?;
    Ok(line)
}

/// Puts a line of a word and a number behind the others.
pub(crate) fn push_numbered(
    alloc: Global,
    lines: &mut Lines,
    word: &[u8],
    number: u64,
) -> Result<(), NoMemory>
    requires line { IsTrue (is_line word.now) }
    ensures pushed { OnOk result (lines.new ≡ lines.old ++ numbered word.now number ∷ []) }
{
    let mut line = word_line(alloc, word)?;
    put_number(alloc, &mut line, number)?;
    lines.push(line)
}

/// Puts a line of two words behind the others.
pub(crate) fn push_worded(
    alloc: Global,
    lines: &mut Lines,
    first: &[u8],
    second: &[u8],
) -> Result<(), NoMemory>
    requires first_line { IsTrue (is_line first.now) }
    requires second_line { IsTrue (is_line second.now) }
    ensures pushed { OnOk result (lines.new ≡ lines.old ++ words (first.now ∷ second.now ∷ []) ∷ []) }
{
    let mut line = word_line(alloc, first)?;
    put_word(&mut line, second)?;
    lines.push(line)
}
