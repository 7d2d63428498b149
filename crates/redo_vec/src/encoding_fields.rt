//! Fields of a record as they are put behind what is spelled so far: numbers, transaction ids, lists of bytes.
ghost use Rattle.std.specs.Prelude.{◌≡◌, ◌++◌, ◌∷◌, ◌<◌, length, OnOk};
ghost use Rattle.redo_vec.specs.Spelling.{be16, be32, be64, xid};

use rl_value::Xid;
use std::alloc::AllocError;

/// A number of two bytes, big-endian.
pub fn put_u16(out: &mut Vec<u8>, number: u16) -> Result<(), AllocError>
    ensures put { OnOk result (out.new.items ≡ out.old.items ++ be16 number) }
{
    out.extend_from_slice(&number.to_be_bytes())
}

/// A number of four bytes, big-endian.
pub fn put_u32(out: &mut Vec<u8>, number: u32) -> Result<(), AllocError>
    ensures put { OnOk result (out.new.items ≡ out.old.items ++ be32 number) }
{
    out.extend_from_slice(&number.to_be_bytes())
}

/// A number of eight bytes, big-endian.
pub fn put_u64(out: &mut Vec<u8>, number: u64) -> Result<(), AllocError>
    ensures put { OnOk result (out.new.items ≡ out.old.items ++ be64 number) }
{
    out.extend_from_slice(&number.to_be_bytes())
}

/// A transaction id.
pub fn put_xid(out: &mut Vec<u8>, id: Xid) -> Result<(), AllocError>
    ensures put { OnOk result (out.new.items ≡ out.old.items ++ xid id) }
{
    put_u16(out, id.usn)?;
    put_u16(out, id.slot)?;
    put_u32(out, id.sqn)
}

/// Bytes with their count before them, in one byte.
pub fn put_short(out: &mut Vec<u8>, bytes: &[u8]) -> Result<(), AllocError>
    requires short { length bytes.now < 256 }
    ensures put { OnOk result (out.new.items ≡ out.old.items ++ length bytes.now ∷ bytes.now) }
{
    out.push(bytes.len() as u8)?;
    out.extend_from_slice(bytes)
}

/// A tag, and bytes with their count before them, in two bytes.
pub(crate) fn put_content(out: &mut Vec<u8>, tag: u8, bytes: &[u8]) -> Result<(), AllocError>
    requires { length bytes.now < 65536 }
    ensures { OnOk result (out.new.items ≡ out.old.items ++ (tag ∷ be16 (length bytes.now) ++ bytes.now)) }
{
    out.push(tag)?;
    put_u16(out, bytes.len() as u16)?;
    out.extend_from_slice(bytes)
}
