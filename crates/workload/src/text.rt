//! The text of a log: its records as they are spelled one behind the other.
//!
//! The header counts the records, so it is spelled when they are whole.
ghost use Rattle.std.specs.Prelude.{◌≡◌, ◌≤◌, ◌++◌, IfOk, OnOk};
ghost use Rattle.workload.specs.Texts.{record_size, text_at, text_with, head_of};

use redo_spec::Header;
use redo_vec::{RedoRec, Vectors, encode_record};
use rl_value::{Bytes, NoMemory};
use std::alloc::Global;

/// The SCN of a log's first record, how many records there are so far, and their spelling.
#[derive(Drop)]
pub struct Text {
    pub first: u64,
    pub count: u32,
    pub bytes: Bytes,
}

fn push_bytes(out: &mut Vec<u8>, bytes: &[u8]) -> Result<(), NoMemory>
    ensures { OnOk result (out.new.items ≡ out.old.items ++ bytes.now) }
{
    match out.extend_from_slice(bytes) {
        Ok(()) => Ok(()),
        Err(_) => Err(NoMemory),
    }
}

fn with_bytes(bytes: Bytes, more: &[u8]) -> Result<Bytes, NoMemory>
    ensures { IfOk result (λ all. all ≡ bytes ++ more.now) }
{
    let mut items = bytes.into_items();
    push_bytes(&mut items, more)?;
    Ok(Bytes::of(items))
}

impl Text {
    /// Before the first record, which gets this SCN.
    pub fn new(alloc: Global, first: u64) -> Text
        ensures { result ≡ text_at first }
    {
        Text {
            first,
            count: 0,
            bytes: Bytes::of(Vec::new(alloc)),
        }
    }

    /// A record of these vectors more.
    #[tactic(auto, unfolding(crate::specs::Texts::text_with))]
    pub fn with(self, alloc: Global, vectors: Vectors) -> Result<Text, NoMemory>
        requires { record_size vectors ≤ 65536 }
        ensures { IfOk result (λ text. text ≡ text_with vectors self) }
    {
        let Text {
            first,
            count,
            bytes,
        } = self;
        let Some(scn) = first.checked_add(u64::from(count)) else {
            return Err(NoMemory);
        };
        let Some(more) = count.checked_add(1) else {
            return Err(NoMemory);
        };
        let rec = RedoRec { scn, vectors };
        let spelled = encode_record(alloc, &rec)?;
        let bytes = with_bytes(bytes, spelled.as_slice())?;
        Ok(Text {
            first,
            count: more,
            bytes,
        })
    }

    /// The header of the log, once its records are whole.
    pub fn head(&self, seq: u32) -> Result<Header, NoMemory>
        ensures { IfOk result (λ head. head ≡ head_of seq self.now) }
    {
        let Some(next) = self.first.checked_add(u64::from(self.count)) else {
            return Err(NoMemory);
        };
        Ok(Header {
            seq,
            dbid: 1,
            first: self.first,
            next,
            count: self.count,
        })
    }
}
