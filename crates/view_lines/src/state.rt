//! VIEW STATE: the guard, how much is applied, and how the last run ended.
ghost use Rattle.std.specs.Prelude.{◌≡◌, IsTrue, IfOk};
ghost use Rattle.rl_base.specs.Lines.{is_line};
ghost use Rattle.view_lines.specs.Views.{level_word, state_lines};

use crate::words::{push_numbered, push_worded};
use rl_base::{Line, Lines};
use rl_value::NoMemory;
use skip_guard::Level;
use std::alloc::Global;

/// The word of a level of the guard.
pub fn level_word(level: Level) -> &'static [u8]
    ensures exact { result.now ≡ level_word level }
    ensures line { IsTrue (is_line result.now) }
{
    match level {
        Level::All => b"ALL",
        Level::Standby => b"STANDBY",
    }
}

/// The lines of VIEW STATE: the level of the guard, how many commits are applied, how many rows are visible, and the word of
/// how the last run of this call ended.
pub fn state_lines(
    alloc: Global,
    level: Level,
    commits: u64,
    rows: u64,
    last: &Line,
) -> Result<Lines, NoMemory>
    ensures exact { IfOk result (λ lines. lines ≡ state_lines level commits rows last.now) }
{
    let mut lines = Lines::of(Vec::new(alloc));
    push_worded(alloc, &mut lines, b"GUARD", level_word(level))?;
    push_numbered(alloc, &mut lines, b"COMMITS", commits)?;
    push_numbered(alloc, &mut lines, b"ROWS", rows)?;
    push_worded(alloc, &mut lines, b"LAST", last.items())?;
    Ok(lines)
}
