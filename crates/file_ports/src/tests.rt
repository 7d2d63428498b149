//! An archive and a spill store over real files, and each stream once.
use crate::{DirSpill, FileArchive, StdSink, StdSource};
use rl_ports::{Archive, Sink, Source, Spill};
use std::fs;
use std::test::Fail;

const FOLDER: &str = "redo";

#[test]
fn logs_are_files_of_the_folder(rt: HostRuntime) -> Result<(), Fail> {
    let _ = fs::remove_dir_all(&rt, FOLDER);
    fs::create_dir(&rt, FOLDER)?;
    fs::write(&rt, "redo/log_7.srl", b"abcdef".as_slice())?;
    fs::write(&rt, "redo/log_10.srl", b"wxyz".as_slice())?;
    fs::create_dir(&rt, "redo/log_8.srl")?;
    let mut archive = FileArchive::new(&rt)?;
    let mut some = [0u8; 4];
    assert!(rt; matches!(archive.length(7), Ok(Some(6))));
    assert!(rt; matches!(archive.read(7, 1, &mut some), Ok(4)));
    assert_eq!(rt; some, *b"bcde");
    assert!(rt; matches!(archive.read(7, 5, &mut some), Ok(1)));
    assert!(rt; matches!(archive.read(7, 6, &mut some), Ok(0)));
    // Two logs by turns: each read is of the log that is asked for.
    assert!(rt; matches!(archive.length(10), Ok(Some(4))));
    assert!(rt; matches!(archive.read(10, 0, &mut some), Ok(4)));
    assert_eq!(rt; some, *b"wxyz");
    assert!(rt; matches!(archive.read(7, 2, &mut some), Ok(4)));
    assert_eq!(rt; some, *b"cdef");
    // An offset that no file reaches is past the end of each.
    assert!(rt; matches!(archive.read(7, u64::MAX, &mut some), Ok(0)));
    assert!(rt; matches!(archive.read(7, 1 << 63, &mut some), Ok(0)));
    assert!(rt; matches!(archive.read(7, (1 << 63) - 1, &mut some), Ok(0)));
    // An absent log is no failure, and has no bytes. A folder in a log's place is one.
    assert!(rt; matches!(archive.length(9), Ok(None)));
    assert!(rt; matches!(archive.read(9, 0, &mut some), Ok(0)));
    assert!(rt; archive.length(8).is_err());
    assert!(rt; archive.read(8, 0, &mut some).is_err());
    // A log that was read before is opened anew.
    assert!(rt; matches!(archive.read(7, 0, &mut some), Ok(4)));
    assert_eq!(rt; some, *b"abcd");
    fs::remove_dir_all(&rt, FOLDER)?;
    // Without a folder each log is absent; with a file in its place nobody can say.
    assert!(rt; matches!(archive.length(7), Ok(None)));
    fs::write(&rt, FOLDER, b"".as_slice())?;
    assert!(rt; archive.length(7).is_err());
    fs::remove_file(&rt, FOLDER)?;
    Ok(())
}

#[test]
fn a_read_without_room_gives_nothing(rt: HostRuntime) -> Result<(), Fail> {
    let mut source = StdSource::new(&rt)?;
    assert!(rt; matches!(source.read(&mut []), Ok(0)));
    Ok(())
}

#[test]
fn the_output_takes_bytes(rt: HostRuntime) -> Result<(), Fail> {
    let mut sink = StdSink::new(&rt)?;
    assert!(rt; matches!(sink.write(b"\n"), Ok(1)));
    assert!(rt; matches!(sink.write(b""), Ok(0)));
    Ok(())
}

#[test]
fn chunks_are_files_of_the_folder(rt: HostRuntime) -> Result<(), Fail> {
    let _ = fs::remove_dir_all(&rt, "spill");
    let mut spill = DirSpill::new(&rt)?;
    let mut into = vec![in rt.alloc(); 7u8]?;
    // Without a folder no chunk is there, and the first one makes it.
    assert!(rt; spill.get(1, &mut into).is_ok());
    assert!(rt; into.is_empty());
    let chunks = [(1, "ab"), (2, ""), (1, "cde"), (u64::MAX, "f"), (10, "g")];
    for (id, bytes) in chunks {
        assert!(rt; spill.put(id, bytes.as_bytes()).is_ok(), "of {id}");
    }
    // The second time there is nothing to drop.
    assert!(rt; spill.drop_id(10).is_ok());
    assert!(rt; spill.drop_id(10).is_ok());
    let left = [(1, "cde"), (2, ""), (3, ""), (u64::MAX, "f"), (10, "")];
    for (id, want) in left {
        assert!(rt; spill.get(id, &mut into).is_ok(), "of {id}");
        assert!(rt; into.as_slice() == want.as_bytes(), "of {id}");
    }
    assert!(rt; spill.clear().is_ok());
    assert!(rt; spill.get(1, &mut into).is_ok());
    assert!(rt; into.is_empty());
    // With a file in the folder's place nothing can be said, and the file stays.
    fs::remove_dir_all(&rt, "spill")?;
    fs::write(&rt, "spill", b"".as_slice())?;
    assert!(rt; spill.put(1, b"a").is_err());
    assert!(rt; spill.get(1, &mut into).is_err());
    assert!(rt; spill.clear().is_err());
    fs::remove_file(&rt, "spill")?;
    Ok(())
}
