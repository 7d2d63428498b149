//! Puts bytes and numbers at the end of a growing text.
ghost use Rattle.std.specs.Prelude.{◌≡◌, ◌++◌, OnOk};
ghost use Rattle.std.specs.Fmt.{decimal, signed_decimal};

use itoa::Buffer;
use rl_value::NoMemory;

pub(crate) fn push_bytes(out: &mut Vec<u8>, bytes: &[u8]) -> Result<(), NoMemory>
    ensures { OnOk result (out.new.items ≡ out.old.items ++ bytes.now) }
{
    match out.extend_from_slice(bytes) {
        Ok(()) => Ok(()),
        Err(_) => Err(NoMemory),
    }
}

pub(crate) fn push_decimal(out: &mut Vec<u8>, number: u64) -> Result<(), NoMemory>
    ensures { OnOk result (out.new.items ≡ out.old.items ++ decimal number) }
{
    let mut digits = Buffer::new();
    push_bytes(out, digits.format(number).as_bytes())
}

pub(crate) fn push_signed(out: &mut Vec<u8>, number: &i64) -> Result<(), NoMemory>
    ensures { OnOk result (out.new.items ≡ out.old.items ++ signed_decimal number.now) }
{
    let mut digits = Buffer::new();
    push_bytes(out, digits.format(*number).as_bytes())
}
