//! Reads a script from bytes, line by line.
ghost use Rattle.std.specs.Prelude.{◌≡◌, ◌++◌, OnOk};
ghost use Rattle.script.specs.Lines.{Parses, SaysAt, items_of, said_of_line, text_of};

use crate::fault::ScriptFault;
use crate::grammar::said_of_line;
use crate::limits::{MAX_BYTES, MAX_STATEMENTS};
use crate::lines::{cut_line, text_of};
use crate::script::Script;
use crate::statement::Statement;
use rl_value::NoMemory;
use script_words::WordsFault;
use std::alloc::Global;

// What the line of this number says.
fn said_at(
    alloc: Global,
    number: u32,
    room: bool,
    line: &[u8],
) -> Result<Option<Statement>, ScriptFault>
    ensures { SaysAt number result (said_of_line room (text_of line.now)) }
{
    match said_of_line(alloc, room, text_of(line)) {
        Ok(said) => Ok(said),
        Err(WordsFault::Grammar) => Err(ScriptFault::Line(number)),
        Err(WordsFault::Memory) => Err(ScriptFault::Memory),
    }
}

fn keep_said(
    items: &mut Vec<(u32, Statement)>,
    number: u32,
    said: Option<Statement>,
) -> Result<(), NoMemory>
    ensures { OnOk result (items.new.items ≡ items.old.items ++ items_of number said) }
{
    match said {
        None => Ok(()),
        Some(statement) => match items.push((number, statement)) {
            Ok(()) => Ok(()),
            Err(_) => Err(NoMemory),
        },
    }
}

/// The script of these bytes, or the number of the first line that is no statement. A caller that has read one byte more
/// than `MAX_BYTES` needs to hand in no more.
#[tactic(auto, unfolding(crate::specs::Lines::script_of))]
pub fn parse(alloc: Global, bytes: &[u8]) -> Result<Script, ScriptFault>
    ensures exact { Parses bytes.now result }
{
    let mut items = Vec::new(alloc);
    let mut number = 1u32;
    // How many bytes stand before the rest.
    let mut used = 0usize;
    let mut rest = bytes;
    while !rest.is_empty() {
        let (line, others) = cut_line(rest);
        used = used + line.len();
        if used > MAX_BYTES {
            return Err(ScriptFault::Line(number));
        }
        let room = items.len() < MAX_STATEMENTS;
        let said = said_at(alloc, number, room, line)?;
        keep_said(&mut items, number, said)?;
        number = number + 1;
        rest = others;
    }
    Ok(Script::of(items))
}
