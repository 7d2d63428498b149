//! Cuts a line into words, and a word into parts, and puts them together again.
//!
//! One byte stands between two parts. It separates nothing between two quotes (specs/Words.antt).
ghost use Rattle.std.specs.Prelude.{◌≡◌, ◌++◌, ◌∷◌, [], IfOk, OnOk};
ghost use Rattle.line_fields.specs.Words.{split, separates, inside_after, joined, joined_behind};

use rl_value::{Bytes, NoMemory};
use std::alloc::Global;

const QUOTE: u8 = b'\'';

fn inside_after(inside: bool, byte: u8) -> bool
    ensures { result ≡ inside_after inside byte }
{
    if byte == QUOTE { !inside } else { inside }
}

fn separates(between: u8, inside: bool, byte: u8) -> bool
    ensures { result ≡ separates between inside byte }
{
    !inside && byte == between
}

/// Puts one byte at the end of a part.
fn push_byte(part: &mut Vec<u8>, byte: u8) -> Result<(), NoMemory>
    ensures { OnOk result (part.new.items ≡ part.old.items ++ byte ∷ []) }
{
    match part.push(byte) {
        Ok(()) => Ok(()),
        Err(_) => Err(NoMemory),
    }
}

/// Puts one part behind the others.
pub fn push_part(parts: &mut Vec<Bytes>, part: Vec<u8>) -> Result<(), NoMemory>
    ensures pushed { OnOk result (parts.new.items ≡ parts.old.items ++ part.items ∷ []) }
{
    match parts.push(Bytes::of(part)) {
        Ok(()) => Ok(()),
        Err(_) => Err(NoMemory),
    }
}

/// The parts of these bytes, one at least: what stands between two bytes of this kind outside of quotes.
pub fn split(alloc: Global, between: u8, bytes: &[u8]) -> Result<Vec<Bytes>, NoMemory>
    ensures parts { IfOk result (λ parts. parts.items ≡ split between bytes.now) }
{
    let mut parts = Vec::new(alloc);
    let mut part = Vec::new(alloc);
    let mut inside = false;
    let mut rest = bytes;
    while let [byte, others @ ..] = rest {
        if separates(between, inside, *byte) {
            push_part(&mut parts, part)?;
            part = Vec::new(alloc);
        } else {
            push_byte(&mut part, *byte)?;
            inside = inside_after(inside, *byte);
        }
        rest = others;
    }
    push_part(&mut parts, part)?;
    Ok(parts)
}

/// Puts bytes at the end of others.
pub fn push_bytes(out: &mut Vec<u8>, bytes: &[u8]) -> Result<(), NoMemory>
    ensures pushed { OnOk result (out.new.items ≡ out.old.items ++ bytes.now) }
{
    match out.extend_from_slice(bytes) {
        Ok(()) => Ok(()),
        Err(_) => Err(NoMemory),
    }
}

fn push_behind(out: &mut Vec<u8>, between: u8, part: &[u8]) -> Result<(), NoMemory>
    ensures { OnOk result (out.new.items ≡ out.old.items ++ between ∷ part.now) }
{
    push_byte(out, between)?;
    push_bytes(out, part)
}

fn push_each(out: &mut Vec<u8>, between: u8, parts: &[Bytes]) -> Result<(), NoMemory>
    ensures { OnOk result (out.new.items ≡ out.old.items ++ joined_behind between parts.now) }
{
    for part in parts {
        push_behind(out, between, part.bytes())?;
    }
    Ok(())
}

/// The parts with the byte between each and the next.
pub fn joined(alloc: Global, between: u8, parts: &[Bytes]) -> Result<Vec<u8>, NoMemory>
    ensures exact { IfOk result (λ bytes. bytes.items ≡ joined between parts.now) }
{
    let mut out = Vec::new(alloc);
    match parts {
        [] => Ok(out),
        [first, others @ ..] => {
            push_bytes(&mut out, first.bytes())?;
            push_each(&mut out, between, others)?;
            Ok(out)
        }
    }
}

/// Two parts with the byte between them.
pub fn joined_two(
    alloc: Global,
    between: u8,
    first: &[u8],
    second: &[u8],
) -> Result<Vec<u8>, NoMemory>
    ensures exact { IfOk result (λ bytes. bytes.items ≡ joined between (first.now ∷ second.now ∷ [])) }
{
    let mut out = Vec::new(alloc);
    push_bytes(&mut out, first)?;
    push_behind(&mut out, between, second)?;
    Ok(out)
}
