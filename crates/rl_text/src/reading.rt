//! Reads a literal: gives the value of which bytes are a literal.
//!
//! Which bytes are a literal of which value: specs/Literal.antt of rl_value (`IsLiteralOf`). Its specs/LiteralValue.antt
//! says the same read from left to right, which is what the functions here do, and the law at the end says that the
//! two agree. Bytes that are no literal have no value, which is no fault.

ghost use Rattle.std.specs.Prelude.{◌≡◌, ◌↔◌, ◌<◌, ◌∷◌, ℕ, List, None, Some, codes, IfOk, IfSome, IfNone, IsTrue, false};
ghost use Rattle.std.specs.Option.{option_and_then};
ghost use Rattle.rl_value.specs.Literal.{AreBytes, IsLiteralOf};
ghost use Rattle.rl_value.specs.Order.{same_bytes};
ghost use Rattle.rl_value.specs.LiteralValue.{value_of_literal, value_of_first, hex_value, unhexed, unhexed_in_quotes, unquoted, text_value, raw_value, quoted_value, number_value};
ghost use Rattle.rl_value.specs.declared.value.Value.{Value as AnyValue};
ghost use Rattle.rl_text.specs.Reading.{pair_value, quoted_step, with_read};

use crate::literal::{QUOTE, RAW_LETTER, TEXT_LETTER, may_be_printed};
use rl_value::{Bin, Bytes, NoMemory, Txt, TxtFault, Value};
use std::alloc::Global;

/// The value of these bytes, or None where they are no literal.
pub fn read_value(alloc: Global, bytes: &[u8]) -> Result<Option<Value>, NoMemory>
    ensures literal { IfOk result (λ found. (value : AnyValue) → (found ≡ Some value) ↔ IsLiteralOf value bytes.now) }
    ensures exact { IfOk result (λ found. found ≡ value_of_literal bytes.now) }
{
    read_literal(alloc, bytes)
}

fn read_literal(alloc: Global, bytes: &[u8]) -> Result<Option<Value>, NoMemory>
    ensures { IfOk result (λ found. found ≡ value_of_literal bytes.now) }
{
    if is_null(bytes) {
        return Ok(Some(Value::Null));
    }
    read_first(alloc, bytes)
}

fn is_null(bytes: &[u8]) -> bool
    ensures { result ≡ same_bytes bytes.now (codes "NULL") }
{
    bytes == b"NULL".as_slice()
}

fn read_first(alloc: Global, bytes: &[u8]) -> Result<Option<Value>, NoMemory>
    ensures { IfOk result (λ found. found ≡ value_of_first bytes.now) }
{
    match bytes {
        [] => Ok(None),
        [first, rest @ ..] => {
            if *first == QUOTE {
                return read_quoted(alloc, rest);
            }
            if *first == TEXT_LETTER {
                return read_text(alloc, rest);
            }
            if *first == RAW_LETTER {
                return read_raw(alloc, rest);
            }
            read_number(alloc, bytes)
        }
    }
}

fn read_quoted(alloc: Global, rest: &[u8]) -> Result<Option<Value>, NoMemory>
    ensures { IfOk result (λ found. found ≡ option_and_then quoted_value (unquoted false rest.now)) }
{
    match unquote(alloc, rest)? {
        None => Ok(None),
        Some(text) => quoted_of(alloc, text.bytes()),
    }
}

fn read_text(alloc: Global, rest: &[u8]) -> Result<Option<Value>, NoMemory>
    ensures { IfOk result (λ found. found ≡ option_and_then text_value (unhexed_in_quotes rest.now)) }
{
    match unhex_in_quotes(alloc, rest)? {
        None => Ok(None),
        Some(text) => text_of(alloc, text.bytes()),
    }
}

fn read_raw(alloc: Global, rest: &[u8]) -> Result<Option<Value>, NoMemory>
    ensures { IfOk result (λ found. found ≡ option_and_then raw_value (unhexed_in_quotes rest.now)) }
{
    match unhex_in_quotes(alloc, rest)? {
        None => Ok(None),
        Some(raw) => raw_of(alloc, raw.bytes()),
    }
}

fn quoted_of(alloc: Global, text: &[u8]) -> Result<Option<Value>, NoMemory>
    ensures { IfOk result (λ found. found ≡ quoted_value text.now) }
{
    match text {
        [] => Ok(Some(Value::Null)),
        [_, ..] => text_of(alloc, text),
    }
}

#[tactic(auto, using(crate::proofs::Literals::forms))]
fn text_of(alloc: Global, bytes: &[u8]) -> Result<Option<Value>, NoMemory>
    ensures { IfOk result (λ found. found ≡ text_value bytes.now) }
{
    match Txt::of(alloc, bytes) {
        Ok(text) => Ok(Some(Value::Text(text))),
        Err(TxtFault::Empty) => Ok(None),
        Err(TxtFault::Size) => Ok(None),
        Err(TxtFault::Utf8) => Ok(None),
        Err(TxtFault::Memory) => Err(NoMemory),
    }
}

#[tactic(auto, using(crate::proofs::Literals::forms))]
fn raw_of(alloc: Global, bytes: &[u8]) -> Result<Option<Value>, NoMemory>
    ensures { IfOk result (λ found. found ≡ raw_value bytes.now) }
{
    match Bin::of(alloc, bytes) {
        Ok(raw) => Ok(Some(Value::Raw(raw))),
        Err(TxtFault::Empty) => Ok(None),
        Err(TxtFault::Size) => Ok(None),
        Err(TxtFault::Utf8) => unreachable!(),
        Err(TxtFault::Memory) => Err(NoMemory),
    }
}

#[tactic(auto, using(crate::proofs::Literals::numbers))]
fn read_number(alloc: Global, bytes: &[u8]) -> Result<Option<Value>, NoMemory>
    ensures { IfOk result (λ found. found ≡ number_value bytes.now) }
{
    let text = match std::str::from_utf8(bytes) {
        Ok(text) => text,
        Err(_) => return Ok(None),
    };
    let number = match i64::from_str_radix(text, 10) {
        Ok(number) => number,
        Err(_) => return Ok(None),
    };
    let Ok(printed) = format!(in alloc; "{number}") else {
        return Err(NoMemory);
    };
    if printed.as_bytes() != bytes {
        return Ok(None);
    }
    Ok(Some(Value::Number(number)))
}

fn unhex_in_quotes(alloc: Global, bytes: &[u8]) -> Result<Option<Bytes>, NoMemory>
    ensures { IfOk result (λ found. found ≡ unhexed_in_quotes bytes.now) }
{
    match bytes {
        [] => Ok(None),
        [first, rest @ ..] => {
            if *first != QUOTE {
                return Ok(None);
            }
            unhex(alloc, rest)
        }
    }
}

fn unhex(alloc: Global, bytes: &[u8]) -> Result<Option<Bytes>, NoMemory>
    ensures { IfOk result (λ found. found ≡ unhexed bytes.now) }
{
    let mut read = Vec::new(alloc);
    let mut rest = bytes;
    while let [high, low, others @ ..] = rest {
        if !read_pair(&mut read, *high, *low)? {
            return Ok(None);
        }
        rest = others;
    }
    match rest {
        [QUOTE] => Ok(Some(Bytes::of(read))),
        _ => Ok(None),
    }
}

/// Reads two digits as a byte; false where one of them is no digit.
#[tactic(auto, using(crate::proofs::Literals::pairs))]
fn read_pair(read: &mut Vec<u8>, high: u8, low: u8) -> Result<bool, NoMemory>
    ensures next { IfOk result (λ read_one. IsTrue read_one → (rest : List ℕ) →
        with_read read.new.items (unhexed rest) ≡ with_read read.old.items (unhexed (high ∷ low ∷ rest))) }
    ensures bad { IfOk result (λ read_one. read_one ≡ false → (rest : List ℕ) → unhexed (high ∷ low ∷ rest) ≡ None) }
{
    let Some(byte) = byte_of(high, low) else {
        return Ok(false);
    };
    if read.push(byte).is_err() {
        return Err(NoMemory);
    }
    Ok(true)
}

/// The byte that two digits spell.
fn byte_of(high: u8, low: u8) -> Option<u8>
    ensures { result ≡ pair_value (hex_value high) (hex_value low) }
{
    let Some(high) = digit_of(high) else {
        return None;
    };
    let Some(low) = digit_of(low) else {
        return None;
    };
    Some(16 * high + low)
}

fn digit_of(byte: u8) -> Option<u8>
    ensures exact { result ≡ hex_value byte }
    ensures small { IfSome result (λ digit. digit < 16) }
{
    if byte >= b'0' && byte <= b'9' {
        return Some(byte - b'0');
    }
    if byte >= b'A' && byte <= b'F' {
        return Some(byte - b'A' + 10);
    }
    None
}

fn unquote(alloc: Global, bytes: &[u8]) -> Result<Option<Bytes>, NoMemory>
    ensures { IfOk result (λ found. found ≡ unquoted false bytes.now) }
{
    let mut read = Vec::new(alloc);
    // The byte before was a quote, which closes the text unless a second one follows.
    let mut half = false;
    let mut rest = bytes;
    while let [byte, others @ ..] = rest {
        match read_step(&mut read, half, *byte)? {
            None => return Ok(None),
            Some(next) => half = next,
        }
        rest = others;
    }
    if half {
        return Ok(Some(Bytes::of(read)));
    }
    Ok(None)
}

/// Reads a byte between quotes, and says whether it is a quote that may close the text; None where it may not stand.
#[tactic(auto, using(crate::proofs::Literals::quotes))]
fn read_step(read: &mut Vec<u8>, half: bool, byte: u8) -> Result<Option<bool>, NoMemory>
    ensures next { IfOk result (λ next. IfSome next (λ after. (rest : List ℕ) →
        with_read read.new.items (unquoted after rest) ≡ with_read read.old.items (unquoted half (byte ∷ rest)))) }
    ensures bad { IfOk result (λ next. IfNone next ((rest : List ℕ) → unquoted half (byte ∷ rest) ≡ None)) }
{
    let Some(own) = step_of(half, byte) else {
        return Ok(None);
    };
    if !own {
        return Ok(Some(true));
    }
    if read.push(byte).is_err() {
        return Err(NoMemory);
    }
    Ok(Some(false))
}

/// Whether a byte between quotes is one of the text's own, or a quote that may close it; None where it may not stand.
fn step_of(half: bool, byte: u8) -> Option<bool>
    ensures { result ≡ quoted_step half byte }
{
    if half {
        return if byte == QUOTE { Some(true) } else { None };
    }
    if byte == QUOTE {
        return Some(false);
    }
    if may_be_printed(byte) {
        Some(true)
    } else {
        None
    }
}

/// The law of literals: bytes are a literal of the value that is read of them, and of no other. It does nothing.
pub fn literals_have_one_value()
    ensures agree { (bytes : List ℕ) → AreBytes bytes → (value : AnyValue) →
        (value_of_literal bytes ≡ Some value) ↔ IsLiteralOf value bytes }
    ensures one { (bytes : List ℕ) (one other : AnyValue) → IsLiteralOf one bytes → IsLiteralOf other bytes → one ≡ other }
{}
