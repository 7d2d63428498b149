//! Appends bytes, words and numbers to a growing text.
ghost use Rattle.std.specs.Prelude.{◌≡◌, ◌++◌, ◌∷◌, OnOk};
ghost use Rattle.std.specs.Fmt.{decimal};

use rl_value::NoMemory;
use std::alloc::Global;

/// Puts bytes at the end.
pub fn push_bytes(out: &mut Vec<u8>, bytes: &[u8]) -> Result<(), NoMemory>
    ensures { OnOk result (out.new.items ≡ out.old.items ++ bytes.now) }
{
    match out.extend_from_slice(bytes) {
        Ok(()) => Ok(()),
        Err(_) => Err(NoMemory),
    }
}

/// Puts a number at the end, in decimal.
pub fn push_decimal(alloc: Global, out: &mut Vec<u8>, number: u64) -> Result<(), NoMemory>
    ensures { OnOk result (out.new.items ≡ out.old.items ++ decimal number) }
{
    let Ok(text) = format!(in alloc; "{number}") else {
        return Err(NoMemory);
    };
    push_bytes(out, text.as_bytes())
}

/// Puts a space and a word at the end.
pub fn push_word(out: &mut Vec<u8>, word: &[u8]) -> Result<(), NoMemory>
    ensures { OnOk result (out.new.items ≡ out.old.items ++ 32 ∷ word.now) }
{
    push_bytes(out, b" ")?;
    push_bytes(out, word)
}

/// Puts a space and a number at the end, in decimal.
pub fn push_number(alloc: Global, out: &mut Vec<u8>, number: u64) -> Result<(), NoMemory>
    ensures { OnOk result (out.new.items ≡ out.old.items ++ 32 ∷ decimal number) }
{
    push_bytes(out, b" ")?;
    push_decimal(alloc, out, number)
}
