//! Reads the fields of a line: numbers, transaction ids, names of the dictionary and values.
ghost use Rattle.std.specs.Prelude.{◌≡◌, ◌≤◌, Ok, Err, IfOk, IfErr, IsTrue};
ghost use Rattle.rl_value.specs.Text.{is_name};
ghost use Rattle.redo_vec.specs.Forms.{is_line30};
ghost use Rattle.line_fields.specs.Fields.{number_said, xid_said, name_of_value, name_said, value_said};
ghost use Rattle.line_fields.specs.Given.{Gives};

use crate::fault::{LineFault, ReadFault};
use redo_vec::Line30;
use rl_text::read_value;
use rl_value::{Name, Value, Xid};
use script_words::number_in;
use std::alloc::Global;

/// A number in decimal, of at most this.
#[tactic(auto, unfolding(crate::specs::Fields::number_said))]
pub fn number_of(most: u64, word: &[u8]) -> Result<u64, LineFault>
    ensures exact { result ≡ number_said most word.now }
    ensures most { IfOk result (λ n. n ≤ most) }
{
    match number_in(0, most, word) {
        Some(number) => Ok(number),
        None => Err(LineFault::Number),
    }
}

pub(crate) fn u8_of(word: &[u8]) -> Result<u8, LineFault>
    ensures { result ≡ number_said 255 word.now }
{
    let number = number_of(255, word)?;
    Ok(number as u8)
}

/// A number of 32 bits.
pub fn u32_of(word: &[u8]) -> Result<u32, LineFault>
    ensures exact { result ≡ number_said 4294967295 word.now }
{
    let number = number_of(4294967295, word)?;
    Ok(number as u32)
}

/// A transaction id: undo segment, slot and sequence with dots between.
#[tactic(auto, unfolding(crate::specs::Fields::xid_said))]
pub fn xid_of(word: &[u8]) -> Result<Xid, LineFault>
    ensures read { result ≡ xid_said word.now }
{
    match script_words::xid_of(word) {
        Some(xid) => Ok(xid),
        None => Err(LineFault::Number),
    }
}

/// Whether a part is a name.
pub fn is_name(part: &[u8]) -> bool
    ensures exact { result ≡ is_name part.now }
{
    Name::of(part).is_some()
}

fn is_line30(bytes: &[u8]) -> bool
    ensures { result ≡ is_line30 bytes.now }
{
    bytes.len() >= 1 && bytes.len() <= 30
}

#[tactic(auto, unfolding(crate::specs::Fields::name_of_value))]
fn name_of_value(value: Option<Value>) -> Result<Line30, LineFault>
    ensures { result ≡ name_of_value value }
{
    match value {
        Some(Value::Raw(raw)) => {
            if !is_line30(raw.bytes()) {
                return Err(LineFault::Name);
            }
            Ok(Line30::of(raw.into_items()))
        }
        _ => Err(LineFault::Name),
    }
}

/// A copy of a name.
#[tactic(auto, using(crate::proofs::Forms::name_fits))]
fn plain_name(alloc: Global, part: &[u8]) -> Result<Line30, ReadFault>
    requires { IsTrue (is_name part.now) }
    ensures kept { IfOk result (λ name. name ≡ part.now) }
    ensures memory { IfErr result (λ fault. fault ≡ ReadFault.Memory) }
{
    Ok(Line30::of(Vec::from_slice(alloc, part)?))
}

/// A schema, a table or a column: a name, or 1 to 30 bytes in hexadecimal.
#[tactic(auto, unfolding(crate::specs::Fields::name_said))]
pub fn name_of(alloc: Global, part: &[u8]) -> Result<Line30, ReadFault>
    ensures read { Gives (λ x. x) result (name_said part.now) }
{
    if is_name(part) {
        return plain_name(alloc, part);
    }
    Ok(name_of_value(read_value(alloc, part)?)?)
}

/// The value of a literal.
pub fn value_of(alloc: Global, part: &[u8]) -> Result<Value, ReadFault>
    ensures read { Gives (λ x. x) result (value_said part.now) }
{
    match read_value(alloc, part)? {
        Some(value) => Ok(value),
        None => Err(ReadFault::Line(LineFault::Literal)),
    }
}
