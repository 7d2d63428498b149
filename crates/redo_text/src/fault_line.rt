//! The line that is shown where a log cannot be read on (specs/FaultLine.antt).
ghost use Rattle.std.specs.Prelude.{◌≡◌, ◌≤◌, ◌∷◌, ◌++◌, [], length, IfOk, OnOk, codes};
ghost use Rattle.std.specs.Fmt.{decimal};
ghost use Rattle.redo_text.specs.FaultLine.{fault_words, bytes_words, fault_line};

use redo_faults::{cut_word, head_word, vector_word};
use redo_lines::{decimal_of, joined, push_bytes, push_part, put_keyword, raw_literal};
use rl_value::{Bytes, CutFault, HeadFault, NoMemory, VecFault};
use std::alloc::Global;

/// Why a log cannot be read on.
#[derive(Clone, Copy, Debug, PartialEq, Eq)]
pub enum LogFault {
    /// The log's header has this fault.
    Head(HeadFault),
    /// The record cannot be cut off the log.
    Cut(CutFault),
    /// The record does not decode.
    Vector(VecFault),
}

fn put_fault(alloc: Global, words: &mut Vec<Bytes>, fault: LogFault) -> Result<(), NoMemory>
    ensures { OnOk result (words.new.items ≡ words.old.items ++ fault_words fault) }
{
    match fault {
        LogFault::Head(fault) => {
            put_keyword(alloc, words, b"HEADER")?;
            put_keyword(alloc, words, head_word(fault))
        }
        LogFault::Cut(fault) => put_keyword(alloc, words, cut_word(fault)),
        LogFault::Vector(fault) => put_keyword(alloc, words, vector_word(fault)),
    }
}

fn put_number(alloc: Global, words: &mut Vec<Bytes>, number: u64) -> Result<(), NoMemory>
    ensures { OnOk result (words.new.items ≡ words.old.items ++ decimal number ∷ []) }
{
    let number = decimal_of(alloc, number)?;
    push_part(words, number)
}

fn put_bytes(alloc: Global, words: &mut Vec<Bytes>, bytes: &[u8]) -> Result<(), NoMemory>
    requires { length bytes.now ≤ 30 }
    ensures { OnOk result (words.new.items ≡ words.old.items ++ bytes_words bytes.now) }
{
    match bytes {
        [] => Ok(()),
        [_, ..] => {
            let word = raw_literal(alloc, bytes)?;
            push_part(words, word)
        }
    }
}

fn put_place(alloc: Global, words: &mut Vec<Bytes>, at: u64, bytes: &[u8]) -> Result<(), NoMemory>
    requires { length bytes.now ≤ 30 }
    ensures { OnOk result (words.new.items ≡ words.old.items ++ decimal at ∷ bytes_words bytes.now) }
{
    put_number(alloc, words, at)?;
    put_bytes(alloc, words, bytes)
}

fn fault_words(
    alloc: Global,
    rec: u64,
    fault: LogFault,
    at: u64,
    bytes: &[u8],
) -> Result<Vec<Bytes>, NoMemory>
    requires { length bytes.now ≤ 30 }
    ensures { IfOk result (λ words. words.items
        ≡ codes "FAULT" ∷ decimal rec ∷ (fault_words fault ++ decimal at ∷ bytes_words bytes.now)) }
{
    let mut words = Vec::new(alloc);
    put_keyword(alloc, &mut words, b"FAULT")?;
    put_number(alloc, &mut words, rec)?;
    put_fault(alloc, &mut words, fault)?;
    put_place(alloc, &mut words, at, bytes)?;
    Ok(words)
}

/// The line of a fault of this record: why, at which offset in the log, and up to 30 bytes that stand there.
pub fn show_fault(
    alloc: Global,
    rec: u64,
    fault: LogFault,
    at: u64,
    bytes: &[u8],
) -> Result<Vec<u8>, NoMemory>
    requires few { length bytes.now ≤ 30 }
    ensures shown { IfOk result (λ line. line.items ≡ fault_line rec fault at bytes.now) }
{
    let words = fault_words(alloc, rec, fault, at, bytes)?;
    let mut line = joined(alloc, b' ', words.as_slice())?;
    push_bytes(&mut line, b"\n")?;
    Ok(line)
}
