//! VIEW LOG: the registered logs in order of their sequences, and the gaps between them.
ghost use Rattle.std.specs.Prelude.{◌≡◌, ◌++◌, ◌∷◌, [], IfOk, OnOk};
ghost use Rattle.std.specs.Fmt.{decimal};
ghost use Rattle.view_lines.specs.Views.{log_line, gap_line, gap_lines, log_lines};

use crate::words::{put_number, word_line};
use log_registry::Registry;
use redo_spec::Header;
use rl_base::{Line, Lines};
use rl_value::NoMemory;
use std::alloc::Global;

fn put_two(alloc: Global, line: &mut Line, first: u64, second: u64) -> Result<(), NoMemory>
    ensures { OnOk result (line.new ≡ line.old ++ 32 ∷ (decimal first ++ 32 ∷ decimal second)) }
{
    put_number(alloc, line, first)?;
    put_number(alloc, line, second)
}

fn log_line(alloc: Global, head: Header) -> Result<Line, NoMemory>
    ensures exact { IfOk result (λ line. line ≡ log_line head) }
{
    let mut line = word_line(alloc, b"LOG")?;
    put_two(alloc, &mut line, u64::from(head.seq), head.first)?;
    put_two(alloc, &mut line, head.next, u64::from(head.count))?;
    Ok(line)
}

fn gap_line(alloc: Global, low: u64, high: u64) -> Result<Line, NoMemory>
    ensures exact { IfOk result (λ line. line ≡ gap_line low high) }
{
    let mut line = word_line(alloc, b"GAP")?;
    put_two(alloc, &mut line, low, high)?;
    Ok(line)
}

// The gap before a log of this sequence, where one of another sequence was expected.
fn push_gap(
    alloc: Global,
    lines: &mut Lines,
    expected: Option<u64>,
    seq: u32,
) -> Result<(), NoMemory>
    ensures { OnOk result (lines.new ≡ lines.old ++ gap_lines expected seq) }
{
    let seq = u64::from(seq);
    match expected {
        None => Ok(()),
        Some(next) => {
            if next < seq {
                let line = gap_line(alloc, next, seq - 1)?;
                return lines.push(line);
            }
            Ok(())
        }
    }
}

fn push_log(
    alloc: Global,
    lines: &mut Lines,
    expected: Option<u64>,
    head: Header,
) -> Result<(), NoMemory>
    ensures { OnOk result (lines.new ≡ lines.old ++ (gap_lines expected head.seq ++ log_line head ∷ [])) }
{
    push_gap(alloc, lines, expected, head.seq)?;
    let line = log_line(alloc, head)?;
    lines.push(line)
}

/// The lines of VIEW LOG: a line for each registered log, and one for each gap between two of them.
pub fn log_lines(alloc: Global, logs: &Registry) -> Result<Lines, NoMemory>
    ensures exact { IfOk result (λ lines. lines ≡ log_lines logs.now) }
{
    let mut lines = Lines::of(Vec::new(alloc));
    let mut expected: Option<u64> = None;
    for entry in logs.entries() {
        push_log(alloc, &mut lines, expected, entry.head)?;
        expected = Some(u64::from(entry.head.seq) + 1);
    }
    Ok(lines)
}
