//! What no clause says: that a log in a file of the folder `redo`, longer than two blocks, is folded by the top call.
use file_ports::{FileArchive, StdSource};
use redo_text::write_log;
use rl_mem::MemSink;
use rl_value::Bytes;
use standby::{Unused, sqlapply_still};
use std::alloc::{AllocError, Global};
use std::fs;
use std::test::Fail;

/// Transactions of the log. With 71 bytes each it has more than two blocks of 65,536 bytes.
const TRANSACTIONS: u16 = 2000;

/// The SCN of the first transaction's insert. Each transaction has two SCNs, its insert's and its commit's.
const FIRST: u64 = 101;

/// The text of a log with a table T.A, and transactions that insert a row each.
fn text_of(alloc: Global, count: u16) -> Result<Vec<u8>, AllocError> {
    let next = FIRST + 2 * count as u64;
    let head = format!(in alloc; "LOG 1\nDBID 9\nFIRST 100\nNEXT {next}\n")?;
    let mut text = Vec::from_slice(alloc, head.as_bytes())?;
    text.extend_from_slice(b"RECORD 100\nTABLE 1 T.A COLUMNS ID:NUMBER KEY ID\nDICTEND\n")?;
    for number in 0..count {
        let scn = FIRST + 2 * number as u64;
        let record = format!(in alloc;
            "RECORD {scn}\nSTART 1.2.3\nINSERT 1.2.3 T.A NEW ID={number}\nRECORD\nCOMMIT 1.2.3\n"
        )?;
        text.extend_from_slice(record.as_bytes())?;
    }
    Ok(text)
}

fn lines_of(alloc: Global, count: u16) -> Result<Vec<u8>, AllocError> {
    let last = FIRST + 2 * count as u64 - 1;
    let head = format!(in alloc; "APPLIED_SCN {last}\nTABLE T.A {count}\n")?;
    let mut lines = Vec::from_slice(alloc, head.as_bytes())?;
    for number in 0..count {
        let line = format!(in alloc; "ROW {number}\n")?;
        lines.extend_from_slice(line.as_bytes())?;
    }
    let end = format!(in alloc; "END {last} {count} DRAINED\n")?;
    lines.extend_from_slice(end.as_bytes())?;
    Ok(lines)
}

fn words_of(alloc: Global) -> Result<Vec<Bytes>, AllocError> {
    let mut words = Vec::new(alloc);
    words.push(Bytes::of(Vec::from_slice(alloc, b"fold")?))?;
    words.push(Bytes::of(Vec::from_slice(alloc, b"1")?))?;
    Ok(words)
}

#[test]
fn a_log_in_a_file_is_folded_block_by_block(rt: HostRuntime) -> Result<(), Fail> {
    let alloc = rt.alloc();
    let _ = fs::remove_dir_all(&rt, "redo");
    fs::create_dir(&rt, "redo")?;
    let text = text_of(alloc, TRANSACTIONS)?;
    let log = write_log(alloc, text.as_slice())?;
    fs::write(&rt, "redo/log_1.srl", log.as_slice())?;
    let mut input = StdSource::new(&rt)?;
    let mut out = MemSink::new(alloc, 65_536, Vec::new(alloc))?;
    let words = words_of(alloc)?;
    let archive = FileArchive::new(&rt)?;
    let ended = sqlapply_still(alloc, &words, &mut input, &mut out, archive, Unused, Unused);
    assert_eq!(rt; ended.status.code(), 0);
    let lines = lines_of(alloc, TRANSACTIONS)?;
    assert!(rt; out.bytes() == lines.as_slice());
    fs::remove_dir_all(&rt, "redo")?;
    Ok(())
}
