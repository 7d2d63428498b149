//! VIEW EVENTS: the last events with their numbers, the oldest first.
ghost use Rattle.std.specs.Prelude.{◌≡◌, IfOk};
ghost use Rattle.view_lines.specs.Views.{event_line, event_lines};

use crate::words::{put_number, put_word, word_line};
use rl_base::{Events, Line, Lines};
use rl_value::NoMemory;
use std::alloc::Global;

fn event_line(alloc: Global, number: u64, event: &Line) -> Result<Line, NoMemory>
    ensures exact { IfOk result (λ line. line ≡ event_line (number, event.now)) }
{
    let mut line = word_line(alloc, b"EVENT")?;
    put_number(alloc, &mut line, number)?;
    put_word(&mut line, event.items())?;
    Ok(line)
}

/// The lines of VIEW EVENTS: a line for each event that is kept, with its number.
pub fn event_lines(alloc: Global, events: &Events) -> Result<Lines, NoMemory>
    ensures exact { IfOk result (λ lines. lines ≡ event_lines events.now) }
{
    let mut lines = Lines::of(Vec::new(alloc));
    for event in events.lines() {
        let line = event_line(alloc, event.0, &event.1)?;
        lines.push(line)?;
    }
    Ok(lines)
}
