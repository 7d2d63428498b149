//! The lines of an answer: its head, and one line for each row (docs/FORMATS.md, "Answers").
ghost use Rattle.std.specs.Prelude.{◌≡◌, ◌++◌, ◌∷◌, [], IsTrue, IfOk, OnOk, map};
ghost use Rattle.std.specs.Fmt.{decimal};
ghost use Rattle.rl_base.specs.Lines.{is_line};
ghost use Rattle.query_sessions.specs.AnswerLines.{head_line, row_line, rows_lines, answer_lines, given_lines, lines_of_asks};

use crate::answer::Answer;
use crate::asks::{Ask, Asks};
use rl_base::{Line, Lines};
use rl_text::put_row;
use rl_value::{Name, NoMemory, Row, Scn};
use std::alloc::Global;

// Puts a number at the end of the line.
fn put_decimal(alloc: Global, line: &mut Line, number: u64) -> Result<(), NoMemory>
    ensures { OnOk result (line.new ≡ line.old ++ decimal number) }
{
    let Ok(digits) = format!(in alloc; "{number}") else {
        return Err(NoMemory);
    };
    line.extend(digits.as_bytes())
}

fn put_number(alloc: Global, line: &mut Line, number: u64) -> Result<(), NoMemory>
    ensures { OnOk result (line.new ≡ line.old ++ 32 ∷ decimal number) }
{
    line.push(b' ')?;
    put_decimal(alloc, line, number)
}

fn put_name(line: &mut Line, name: &Name) -> Result<(), NoMemory>
    ensures { OnOk result (line.new ≡ line.old ++ 32 ∷ name.now) }
{
    line.push(b' ')?;
    line.extend(name.bytes())
}

// The session, the SCN and the count behind the line's first word.
fn put_place(
    alloc: Global,
    line: &mut Line,
    session: &Name,
    scn: Scn,
    count: u64,
) -> Result<(), NoMemory>
    ensures { OnOk result (line.new ≡ line.old ++ 32 ∷ (session.now ++ 32 ∷ (decimal scn ++ 32 ∷ decimal count))) }
{
    put_name(line, session)?;
    put_number(alloc, line, scn)?;
    put_number(alloc, line, count)
}

fn head_line(
    alloc: Global,
    word: &[u8],
    session: &Name,
    scn: Scn,
    count: u64,
) -> Result<Line, NoMemory>
    requires line { IsTrue (is_line word.now) }
    ensures exact { IfOk result (λ line. line ≡ head_line word.now session.now scn count) }
{
    let mut line = Line::new(alloc);
    line.extend(word)?;
    put_place(alloc, &mut line, session, scn, count)?;
    Ok(line)
}

fn put_head(
    alloc: Global,
    lines: &mut Lines,
    word: &[u8],
    session: &Name,
    scn: Scn,
    count: u64,
) -> Result<(), NoMemory>
    requires line { IsTrue (is_line word.now) }
    ensures { OnOk result (lines.new ≡ lines.old ++ head_line word.now session.now scn count ∷ []) }
{
    let line = head_line(alloc, word, session, scn, count)?;
    lines.push(line)
}

fn row_line(alloc: Global, row: &Row) -> Result<Line, NoMemory>
    ensures exact { IfOk result (λ line. line ≡ row_line row.now) }
{
    let mut line = Line::new(alloc);
    line.extend(b"ROW ")?;
    put_row(alloc, &mut line, row)?;
    Ok(line)
}

fn put_rows(alloc: Global, lines: &mut Lines, rows: &[Row]) -> Result<(), NoMemory>
    ensures { OnOk result (lines.new ≡ lines.old ++ map row_line rows.now) }
{
    for row in rows {
        let line = row_line(alloc, row)?;
        lines.push(line)?;
    }
    Ok(())
}

fn put_rows_answer(
    alloc: Global,
    lines: &mut Lines,
    session: &Name,
    scn: Scn,
    rows: &[Row],
) -> Result<(), NoMemory>
    ensures { OnOk result (lines.new ≡ lines.old ++ rows_lines session.now scn rows.now) }
{
    put_head(alloc, lines, b"ANSWER", session, scn, rows.len() as u64)?;
    put_rows(alloc, lines, rows)
}

fn put_answer(
    alloc: Global,
    lines: &mut Lines,
    session: &Name,
    scn: Scn,
    answer: &Answer,
) -> Result<(), NoMemory>
    ensures { OnOk result (lines.new ≡ lines.old ++ answer_lines session.now scn answer.now) }
{
    match answer {
        Answer::Rows(rows) => put_rows_answer(alloc, lines, session, scn, rows.items()),
        Answer::Count(count) => put_head(alloc, lines, b"COUNT", session, scn, *count),
        Answer::Many(count) => put_head(alloc, lines, b"MANY", session, scn, *count),
    }
}

/// The lines of an answer to the session of this name, given by tables of this SCN.
pub fn answer_lines(
    alloc: Global,
    session: &Name,
    scn: Scn,
    answer: &Answer,
) -> Result<Lines, NoMemory>
    ensures exact { IfOk result (λ lines. lines ≡ answer_lines session.now scn answer.now) }
{
    let mut lines = Lines::of(Vec::new(alloc));
    put_answer(alloc, &mut lines, session, scn, answer)?;
    Ok(lines)
}

fn put_given(
    alloc: Global,
    lines: &mut Lines,
    session: &Name,
    answer: &Option<(Scn, u64, Answer)>,
) -> Result<(), NoMemory>
    ensures { OnOk result (lines.new ≡ lines.old ++ given_lines session.now answer.now) }
{
    match answer {
        None => Ok(()),
        Some(given) => put_answer(alloc, lines, session, given.0, &given.2),
    }
}

fn put_asks(alloc: Global, lines: &mut Lines, asks: &[Ask]) -> Result<(), NoMemory>
    ensures { OnOk result (lines.new ≡ lines.old ++ lines_of_asks asks.now) }
{
    for waiting in asks {
        put_given(alloc, lines, &waiting.session, &waiting.answer)?;
    }
    Ok(())
}

/// The lines of the answers that the queries have, in the order of their statements.
pub fn ask_lines(alloc: Global, asks: &Asks) -> Result<Lines, NoMemory>
    ensures exact { IfOk result (λ lines. lines ≡ lines_of_asks asks.now) }
{
    let mut lines = Lines::of(Vec::new(alloc));
    put_asks(alloc, &mut lines, asks.items())?;
    Ok(lines)
}
