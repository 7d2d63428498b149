//! Writes the log that a text says.
ghost use Rattle.std.specs.Prelude.{◌≡◌, ◌++◌, [], Ok, Err, IfOk, OnOk, codes};
ghost use Rattle.redo_vec.specs.Spelling.{be16, be32, be64};
ghost use Rattle.rl_value.specs.Outcome.{map_ok};
ghost use Rattle.redo_spec.specs.Log.{Log, IsSpelled, header_bytes, log_bytes};
ghost use Rattle.redo_text.specs.Given.{Tells};
ghost use Rattle.redo_text.specs.Draft.{add_bytes, beginning, line_taken, finished};
ghost use Rattle.redo_text.specs.Text.{at_line, last_line, text_from, bytes_said, log_said};

use crate::draft::Draft;
use crate::fault::WriteFault;
use crate::laws::a_text_says_a_log;
use redo_lines::ReadFault;
use redo_spec::Header;
use std::alloc::{AllocError, Global};

const LF: u8 = b'\n';

fn line_taken(alloc: Global, draft: Draft, number: u64, line: &[u8]) -> Result<Draft, WriteFault>
    ensures { Tells (λ d. d) result (at_line number (line_taken add_bytes draft line.now)) }
{
    match draft.line_taken(alloc, line) {
        Ok(draft) => Ok(draft),
        Err(ReadFault::Line(fault)) => Err(WriteFault::Line {
            line: number,
            fault,
        }),
        Err(ReadFault::Memory) => Err(WriteFault::Memory),
    }
}

fn finished(alloc: Global, draft: Draft, number: u64) -> Result<(Header, Vec<u8>), WriteFault>
    ensures { Tells (λ x. (x.0, x.1.items)) result (at_line number (finished add_bytes draft)) }
{
    match draft.finished(alloc) {
        Ok(whole) => Ok(whole),
        Err(ReadFault::Line(fault)) => Err(WriteFault::Line {
            line: number,
            fault,
        }),
        Err(ReadFault::Memory) => Err(WriteFault::Memory),
    }
}

// The last line, and then the end.
fn last_line(
    alloc: Global,
    draft: Draft,
    number: u64,
    line: &[u8],
) -> Result<(Header, Vec<u8>), WriteFault>
    ensures { Tells (λ x. (x.0, x.1.items)) result (last_line add_bytes draft number line.now) }
{
    let draft = line_taken(alloc, draft, number, line)?;
    finished(alloc, draft, number)
}

// All lines, from the first one on.
fn text_read(alloc: Global, text: &[u8]) -> Result<(Header, Vec<u8>), WriteFault>
    ensures { Tells (λ x. (x.0, x.1.items)) result (text_from add_bytes (beginning []) 1 [] text.now) }
{
    let mut draft = Draft::new(alloc);
    let mut line = Vec::new(alloc);
    let mut number = 1u64;
    let mut rest = text;
    while let [byte, others @ ..] = rest {
        if *byte == LF {
            draft = line_taken(alloc, draft, number, line.as_slice())?;
            line.clear();
            number = number + 1;
        } else {
            line.push(*byte)?;
        }
        rest = others;
    }
    last_line(alloc, draft, number, line.as_slice())
}

fn put_u32(out: &mut Vec<u8>, number: u32) -> Result<(), AllocError>
    ensures { OnOk result (out.new.items ≡ out.old.items ++ be32 number) }
{
    out.extend_from_slice(&number.to_be_bytes())
}

fn put_u64(out: &mut Vec<u8>, number: u64) -> Result<(), AllocError>
    ensures { OnOk result (out.new.items ≡ out.old.items ++ be64 number) }
{
    out.extend_from_slice(&number.to_be_bytes())
}

// Magic, version, thread and dbid.
fn put_front(out: &mut Vec<u8>, head: Header) -> Result<(), AllocError>
    ensures { OnOk result (out.new.items ≡ out.old.items ++ (codes "SRL1" ++ be16 1 ++ be16 1 ++ be32 head.dbid)) }
{
    out.extend_from_slice(b"SRL1\x00\x01\x00\x01")?;
    put_u32(out, head.dbid)
}

fn put_range(out: &mut Vec<u8>, head: Header) -> Result<(), AllocError>
    ensures { OnOk result (out.new.items ≡ out.old.items ++ (be64 head.first ++ be64 head.next)) }
{
    put_u64(out, head.first)?;
    put_u64(out, head.next)
}

// The number of records, and the reserved field.
fn put_count(out: &mut Vec<u8>, head: Header) -> Result<(), AllocError>
    ensures { OnOk result (out.new.items ≡ out.old.items ++ (be32 head.count ++ be32 0)) }
{
    put_u32(out, head.count)?;
    put_u32(out, 0)
}

fn header_spelled(alloc: Global, head: Header) -> Result<Vec<u8>, AllocError>
    ensures { IfOk result (λ bytes. bytes.items ≡ header_bytes head) }
{
    let mut out = Vec::new(alloc);
    put_front(&mut out, head)?;
    put_u32(&mut out, head.seq)?;
    put_range(&mut out, head)?;
    put_count(&mut out, head)?;
    Ok(out)
}

fn spelled(alloc: Global, head: Header, records: Vec<u8>) -> Result<Vec<u8>, AllocError>
    ensures { IfOk result (λ bytes. bytes.items ≡ header_bytes head ++ records.items) }
{
    let mut out = header_spelled(alloc, head)?;
    out.extend_from_slice(records.as_slice())?;
    Ok(out)
}

#[tactic(auto, unfolding(crate::specs::Text::bytes_said))]
fn bytes_of(alloc: Global, text: &[u8]) -> Result<Vec<u8>, WriteFault>
    ensures { Tells (λ bytes. bytes.items) result (bytes_said text.now) }
{
    let (head, records) = text_read(alloc, text)?;
    Ok(spelled(alloc, head, records)?)
}

/// The spelling of the log that a text says, or its first bad line.
pub fn write_log(alloc: Global, text: &[u8]) -> Result<Vec<u8>, WriteFault>
    ensures exact { Tells (λ bytes. bytes.items) result (map_ok log_bytes (log_said text.now)) }
    // The log has a spelling, and it is this.
    ensures spelled { IfOk result (λ bytes. (log : Log) × (log_said text.now ≡ Ok log) × IsSpelled log bytes.items) }
{
    a_text_says_a_log();
    bytes_of(alloc, text)
}
