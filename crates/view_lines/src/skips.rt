//! VIEW SKIP: the skip rules in their order, each with the commit after which it counts.
ghost use Rattle.std.specs.Prelude.{◌≡◌, ◌++◌, ◌∷◌, map, IfOk, OnOk};
ghost use Rattle.std.specs.Fmt.{decimal};
ghost use Rattle.redo_spec.specs.Skips.{Tables, Transaction};
ghost use Rattle.skip_guard.specs.Rules.{rule_of, skip_of};
ghost use Rattle.view_lines.specs.Views.{rule_line, skip_line, skip_lines};

use crate::words::{put_number, word_line};
use rl_base::{Line, Lines};
use rl_text::put_xid;
use rl_value::{NoMemory, Xid};
use skip_guard::{Pattern, SkipEntry, SkipRule, Skips};
use std::alloc::Global;

fn put_pattern(line: &mut Line, pattern: &Pattern) -> Result<(), NoMemory>
    ensures { OnOk result (line.new ≡ line.old ++ 32 ∷ pattern.now) }
{
    line.push(b' ')?;
    line.extend(pattern.bytes())
}

fn tables_line(alloc: Global, pattern: &Pattern) -> Result<Line, NoMemory>
    ensures exact { IfOk result (λ line. line ≡ rule_line (Tables pattern.now)) }
{
    let mut line = word_line(alloc, b"SKIP TABLE")?;
    put_pattern(&mut line, pattern)?;
    Ok(line)
}

fn transaction_line(alloc: Global, xid: Xid) -> Result<Line, NoMemory>
    ensures exact { IfOk result (λ line. line ≡ rule_line (Transaction xid)) }
{
    let mut line = word_line(alloc, b"SKIP TRANSACTION ")?;
    put_xid(alloc, &mut line, xid)?;
    Ok(line)
}

/// The line of a rule, as the statement has it that gives the rule.
pub fn rule_line(alloc: Global, rule: &SkipRule) -> Result<Line, NoMemory>
    ensures exact { IfOk result (λ line. line ≡ rule_line (rule_of rule.now)) }
{
    match rule {
        SkipRule::Tables(pattern) => tables_line(alloc, pattern),
        SkipRule::Transaction(xid) => transaction_line(alloc, *xid),
    }
}

fn with_number(alloc: Global, line: Line, number: u64) -> Result<Line, NoMemory>
    ensures exact { IfOk result (λ after. after ≡ line ++ 32 ∷ decimal number) }
{
    let mut line = line;
    put_number(alloc, &mut line, number)?;
    Ok(line)
}

fn skip_line(alloc: Global, entry: &SkipEntry) -> Result<Line, NoMemory>
    ensures exact { IfOk result (λ line. line ≡ skip_line (skip_of entry.now)) }
{
    match &entry.rule {
        SkipRule::Tables(pattern) => {
            let line = tables_line(alloc, pattern)?;
            with_number(alloc, line, entry.from)
        }
        SkipRule::Transaction(xid) => {
            let line = transaction_line(alloc, *xid)?;
            with_number(alloc, line, entry.from)
        }
    }
}

fn push_entries(alloc: Global, lines: &mut Lines, entries: &[SkipEntry]) -> Result<(), NoMemory>
    ensures { OnOk result (lines.new ≡ lines.old ++ skip_lines (map skip_of entries.now)) }
{
    for entry in entries {
        let line = skip_line(alloc, entry)?;
        lines.push(line)?;
    }
    Ok(())
}

/// The lines of VIEW SKIP: a line for each rule, in the order in which they were given.
pub fn skip_lines(alloc: Global, skips: &Skips) -> Result<Lines, NoMemory>
    ensures exact { IfOk result (λ lines. lines ≡ skip_lines skips.now) }
{
    let mut lines = Lines::of(Vec::new(alloc));
    push_entries(alloc, &mut lines, skips.entries())?;
    Ok(lines)
}
