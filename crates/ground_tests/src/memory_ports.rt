//! Which calls fail, that what is put comes back, and that the calls which want memory succeed where there is some.

ghost use Rattle.std.specs.Prelude.{IsTrue, IfOk};
ghost use Rattle.rl_ports.specs.Store.{is_key, key_of, have_keys};

use rl_mem::{
    MemArchive, MemKeeper, MemSink, MemSource, MemSpill, SureArchive, SureKeeper, SureSource,
    SureSpill,
};
use rl_ports::{Archive, Batch, Failed, Item, Keeper, Pair, PortFault, Sink, Source, Spill};
use rl_value::Bytes;
use std::alloc::{AllocError, Global};
use std::test::Fail;

fn reads<S: Source>(source: &mut S, want: Result<usize, Failed>) -> bool {
    let mut into = [0; 2];
    source.read(&mut into) == want
}

#[test]
fn a_source_fails_at_its_calls_and_goes_on(rt: HostRuntime) -> Result<(), Fail> {
    let alloc = rt.alloc();
    let mut source = MemSource::new(vec![in alloc; 1, 2, 3]?, vec![in alloc; 2]?);
    for want in [Ok(2), Err(Failed), Ok(1), Ok(0)] {
        assert!(rt; reads(&mut source, want));
    }
    let mut sure = SureSource::new(vec![in alloc; 1, 2, 3]?);
    for want in [Ok(2), Ok(1), Ok(0)] {
        assert!(rt; reads(&mut sure, want));
    }
    Ok(())
}

#[test]
fn a_sink_takes_what_it_has_room_for(rt: HostRuntime) -> Result<(), Fail> {
    let alloc = rt.alloc();
    let mut sink = MemSink::new(alloc, 3, vec![in alloc; 4]?)?;
    for (text, want) in [
        ("ab", Ok(2)),
        ("cd", Err(Failed)),
        ("c", Ok(1)),
        ("", Err(Failed)),
    ] {
        assert!(rt; sink.write(text.as_bytes()) == want, "{text}");
    }
    assert!(rt; sink.bytes() == b"abc".as_slice());
    Ok(())
}

/// A call of an archive, and what it has to answer.
#[derive(Clone, Copy)]
enum Asked {
    Length(u32, Result<Option<u64>, Failed>),
    /// From this offset on, with the first byte that is read, or 0.
    Read(u32, u64, Result<usize, Failed>, u8),
}

fn is_told<A: Archive>(archive: &mut A, asked: Asked) -> bool {
    match asked {
        Asked::Length(seq, want) => archive.length(seq) == want,
        Asked::Read(seq, at, want, first) => {
            let mut into = [0; 4];
            let found = archive.read(seq, at, &mut into);
            found == want && into[0] == first
        }
    }
}

#[test]
fn logs_are_found_by_their_sequences(rt: HostRuntime) -> Result<(), Fail> {
    let alloc = rt.alloc();
    let mut archive = MemArchive::new(alloc, vec![in alloc; 3, 5]?);
    archive.put_log(7, vec![in alloc; 1, 2, 3]?)?;
    for asked in [
        Asked::Length(7, Ok(Some(3))),
        Asked::Read(7, 2, Ok(1), 3),
        Asked::Length(7, Err(Failed)),
        Asked::Length(8, Ok(None)),
        // This call is told to fail, and doesn't: there is nothing to read.
        Asked::Read(8, 0, Ok(0), 0),
    ] {
        assert!(rt; is_told(&mut archive, asked));
    }
    Ok(())
}

#[test]
fn logs_are_put_in_any_order(rt: HostRuntime) -> Result<(), Fail> {
    let alloc = rt.alloc();
    let mut sure = SureArchive::new(alloc);
    sure.put_log(8, vec![in alloc; 9]?)?;
    sure.put_log(7, vec![in alloc; 4, 5]?)?;
    for asked in [
        Asked::Length(7, Ok(Some(2))),
        Asked::Read(7, 0, Ok(2), 4),
        Asked::Read(7, 1, Ok(1), 5),
    ] {
        assert!(rt; is_told(&mut sure, asked));
    }
    Ok(())
}

// Puts a chunk, and reads it in the place of what `into` holds.
fn put_and_get(
    spill: &mut SureSpill,
    id: u64,
    bytes: &[u8],
    into: &mut Vec<u8>,
) -> Result<(), PortFault> {
    spill.put(id, bytes)?;
    spill.get(id, into)
}

// The same.
fn put_and_get_told(
    spill: &mut MemSpill,
    id: u64,
    bytes: &[u8],
    into: &mut Vec<u8>,
) -> Result<(), PortFault> {
    spill.put(id, bytes)?;
    spill.get(id, into)
}

// A chunk of one byte comes back in the place of two others, or the call is refused so.
fn comes_back(alloc: Global, spill: &mut SureSpill, id: u64, byte: u8) -> Result<bool, Fail> {
    let mut into = vec![in alloc; 9, 9]?;
    let put = put_and_get(spill, id, &[byte], &mut into).is_ok();
    Ok(put && into.as_slice() == [byte].as_slice())
}

// The same of a store that fails.
fn comes_back_told(alloc: Global, spill: &mut MemSpill, id: u64, byte: u8) -> Result<bool, Fail> {
    let mut into = vec![in alloc; 9, 9]?;
    let put = put_and_get_told(spill, id, &[byte], &mut into).is_ok();
    Ok(put && into.as_slice() == [byte].as_slice())
}

#[test]
fn chunks_come_back_as_they_were_put(rt: HostRuntime) -> Result<(), Fail> {
    let alloc = rt.alloc();
    let mut sure = SureSpill::new(alloc);
    for (id, byte) in [(2, b'a'), (1, b'b'), (2, b'c')] {
        assert!(rt; comes_back(alloc, &mut sure, id, byte)?, "{id}");
    }
    Ok(())
}

// The third call fails, which is the second put, and the fifth, which is a put behind a drop.
#[test]
fn a_spill_store_fails_at_its_calls(rt: HostRuntime) -> Result<(), Fail> {
    let alloc = rt.alloc();
    let mut told = MemSpill::new(alloc, vec![in alloc; 3, 5]?);
    assert!(rt; comes_back_told(alloc, &mut told, 1, b'c')?);
    assert!(rt; !comes_back_told(alloc, &mut told, 1, b'd')?);
    assert!(rt; told.drop_id(2) == Ok(()));
    assert!(rt; !comes_back_told(alloc, &mut told, 1, b'e')?);
    assert!(rt; told.clear() == Ok(()));
    Ok(())
}

// A pair to put, with a key and a value of one byte.
fn put(alloc: Global, area: u8, key: u8, value: u8) -> Result<Item, AllocError>
    ensures { IfOk result (λ item. IsTrue (is_key (key_of item))) }
{
    let key = Bytes::of(vec![in alloc; key]?);
    let value = Bytes::of(vec![in alloc; value]?);
    Ok(Item::Put { area, key, value })
}

fn three_pairs(alloc: Global) -> Result<Batch, AllocError>
    ensures { IfOk result (λ batch. IsTrue (have_keys batch)) }
{
    let items = vec![in alloc;
        put(alloc, 1, b'b', 1)?,
        put(alloc, 0, b'c', 2)?,
        put(alloc, 1, b'a', 3)?,
    ]?;
    Ok(Batch::of(items))
}

fn one_pair(alloc: Global) -> Result<Batch, AllocError>
    ensures { IfOk result (λ batch. IsTrue (have_keys batch)) }
{
    Ok(Batch::of(vec![in alloc; put(alloc, 1, b'b', 4)?]?))
}

// The key and the value of a pair, by their first bytes.
fn shown(found: Result<Option<Pair>, PortFault>) -> Option<(u8, u8)> {
    let Ok(Some(pair)) = found else {
        return None;
    };
    match (pair.key.bytes(), pair.value.bytes()) {
        ([key], [value]) => Some((*key, *value)),
        _ => None,
    }
}

// What stands behind this key of the area is this pair, by its first bytes, or none does.
fn is_next<K: Keeper>(keeper: &mut K, area: u8, key: &str, want: Option<(u8, u8)>) -> bool {
    shown(keeper.after(area, key.as_bytes())) == want
}

// What stands behind each key once both batches are done.
const BEHIND: [(u8, &str, Option<(u8, u8)>); 5] = [
    (0, "", Some((b'c', 2))),
    (0, "c", None),
    (1, "", Some((b'a', 3))),
    (1, "a", Some((b'b', 4))),
    (1, "b", None),
];

#[test]
fn pairs_are_found_in_order(rt: HostRuntime) -> Result<(), Fail> {
    let alloc = rt.alloc();
    let mut sure = SureKeeper::new(alloc);
    assert!(rt; sure.commit(&three_pairs(alloc)?) == Ok(()));
    assert!(rt; sure.commit(&one_pair(alloc)?) == Ok(()));
    for (area, key, want) in BEHIND {
        assert!(rt; is_next(&mut sure, area, key, want), "after {area} {key}");
    }
    Ok(())
}

// The second commit fails and makes its change all the same.
#[test]
fn a_failed_commit_may_be_kept(rt: HostRuntime) -> Result<(), Fail> {
    let alloc = rt.alloc();
    let mut told = MemKeeper::new(alloc, vec![in alloc; 2]?, true);
    assert!(rt; told.commit(&three_pairs(alloc)?) == Ok(()));
    assert!(rt; told.commit(&one_pair(alloc)?) == Err(PortFault::Failed));
    for (area, key, want) in BEHIND {
        assert!(rt; is_next(&mut told, area, key, want), "after {area} {key}");
    }
    Ok(())
}
