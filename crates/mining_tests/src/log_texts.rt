//! The first log as a text, what is shown of a log and of its pieces, and the first bad line of texts.
ghost use Rattle.std.specs.Prelude.{◌<◌};

use redo_spec::Header;
use redo_text::{
    LineFault, LogFault, Shown, WriteFault, read_vector, show_fault, show_header, show_record,
    write_log,
};
use redo_vec::{RedoRec, TableRow, Vectors};
use rl_value::VecFault;
use std::alloc::Global;
use std::test::Fail;

// The log of examples/first_log, byte by byte as its page has it.
const FIRST_LOG: [u8; 146] = [
    0x53, 0x52, 0x4c, 0x31, 0, 1, 0, 1, 0, 0, 0, 9, 0, 0, 0, 1, 0, 0, 0, 0, 0, 0, 0, 0x64, 0, 0, 0,
    0, 0, 0, 0, 0xc8, 0, 0, 0, 3, 0, 0, 0, 0, 0, 0, 0, 0x23, 0, 0, 0, 0, 0, 0, 0, 0x64, 0, 2, 8, 0,
    0, 0, 1, 1, 0x54, 1, 0x41, 1, 2, 0x49, 0x44, 1, 0, 0, 0, 1, 0, 0, 9, 0, 0, 0, 0x30, 0, 0, 0, 0,
    0, 0, 0, 0x65, 0, 2, 1, 0, 1, 0, 2, 0, 0, 0, 3, 2, 0, 1, 0, 2, 0, 0, 0, 3, 0, 0, 0, 1, 0, 1, 0,
    1, 0, 0, 0, 0, 0, 0, 0, 7, 0, 0, 0, 0x17, 0, 0, 0, 0, 0, 0, 0, 0x66, 0, 1, 6, 0, 1, 0, 2, 0, 0,
    0, 3,
];

const FIRST_TEXT: &str =
    "# the first log\nLOG 1\nDBID 9\nNEXT 200\n\nRECORD 100\nTABLE 1 T.A COLUMNS ID:NUMBER KEY ID\nDICTEND\n\
    RECORD\nSTART 1.2.3\nINSERT 1.2.3 T.A NEW ID=7\nRECORD 102\nCOMMIT 1.2.3\n";

#[test]
fn the_first_log_is_written(rt: HostRuntime) -> Result<(), Fail> {
    let log = write_log(rt.alloc(), FIRST_TEXT.as_bytes())?;
    assert_eq!(rt; log.as_slice(), FIRST_LOG.as_slice());
    Ok(())
}

#[test]
fn the_first_bad_line_is_told(rt: HostRuntime) {
    let cases = [
        ("", 1, LineFault::Empty),
        ("DBID 9", 1, LineFault::Order),
        ("LOG 1\nLOG 1", 2, LineFault::Twice),
        ("LOG 1\nRECORD", 2, LineFault::Order),
        ("LOG 01", 1, LineFault::Number),
        ("LOG 1\n\nDBID 9\nRECORD\nRECORD", 5, LineFault::Empty),
        ("LOG 1\nDBID 9\nRECORD\n", 4, LineFault::Empty),
        ("LOG 1\nDBID 9\nRECORD\nNEXT 5", 4, LineFault::Order),
        ("LOG 1\nDBID 9\nRECORD\nSTART 1.2.3 ", 4, LineFault::Words),
        ("LOG 1\nDBID 9\nRECORD\nSTART 1.2.03", 4, LineFault::Number),
        (
            "LOG 1\nDBID 9\nRECORD\nINSERT 1.2.3 T.A",
            4,
            LineFault::NoTable,
        ),
        (
            "LOG 1\nDBID 9\nRECORD\nINSERT 1.2.3 1 NEW ID=1",
            4,
            LineFault::NoColumn,
        ),
        (
            "LOG 1\nDBID 9\nRECORD\nINSERT 1.2.3 1 NEW 1=1 1=2",
            4,
            LineFault::Columns,
        ),
        (
            "LOG 1\nDBID 9\nRECORD\nINSERT 1.2.3 1 NEW 1=1x",
            4,
            LineFault::Literal,
        ),
        (
            "LOG 1\nDBID 9\nRECORD\nTABLE 1 T.a COLUMNS ID:NUMBER KEY ID",
            4,
            LineFault::Name,
        ),
        (
            "LOG 1\nDBID 9\nRECORD 18446744073709551615\nDICTEND\nRECORD",
            5,
            LineFault::Number,
        ),
    ];
    for (text, line, fault) in cases {
        let found = write_log(rt.alloc(), text.as_bytes()).err();
        assert_eq!(rt; found, Some(WriteFault::Line { line, fault }), "for {text}");
    }
}

// An INSERT of one text of 500 bytes, which is spelled in 519.
fn long_line(alloc: Global) -> Result<Vec<u8>, Fail> {
    let mut line = Vec::from_slice(alloc, b"INSERT 1.2.3 1 NEW 0='")?;
    let text = vec![in alloc; b'a'; 500]?;
    line.extend_from_slice(text.as_slice())?;
    line.extend_from_slice(b"'\n")?;
    Ok(line)
}

// Why a text of one record is bad that has this line so many times from its line 4 on.
fn fault_of_record(alloc: Global, line: &[u8], count: u16) -> Result<Option<WriteFault>, Fail> {
    let mut text = Vec::from_slice(alloc, b"LOG 1\nDBID 9\nRECORD\n")?;
    for _ in 0..count {
        text.extend_from_slice(line)?;
    }
    Ok(write_log(alloc, text.as_slice()).err())
}

#[test]
fn a_record_has_255_vectors_and_65536_bytes(rt: HostRuntime) -> Result<(), Fail> {
    let alloc = rt.alloc();
    let insert = long_line(alloc)?;
    let many = WriteFault::Line {
        line: 259,
        fault: LineFault::Many,
    };
    let long = WriteFault::Line {
        line: 130,
        fault: LineFault::Long,
    };
    let cases: [(&[u8], u16, Option<WriteFault>); 4] = [
        (b"DICTEND\n".as_slice(), 255, None),
        (b"DICTEND\n".as_slice(), 256, Some(many)),
        (insert.as_slice(), 126, None),
        (insert.as_slice(), 127, Some(long)),
    ];
    for (line, count, want) in cases {
        let found = fault_of_record(alloc, line, count)?;
        assert_eq!(rt; found, want, "at {count} vectors");
    }
    Ok(())
}

#[test]
fn a_header_and_a_record_are_shown(rt: HostRuntime) -> Result<(), Fail> {
    let alloc = rt.alloc();
    let head = Header {
        seq: 1,
        dbid: 9,
        first: 100,
        next: 200,
        count: 3,
    };
    let text = show_header(alloc, head)?;
    assert_eq!(rt;
        text.as_slice(),
        b"LOG 1\nDBID 9\nFIRST 100\nNEXT 200\n".as_slice()
    );
    let mut tables: Vec<TableRow> = Vec::new(alloc);
    let table = read_vector(
        alloc,
        tables.as_slice(),
        b"TABLE 1 T.A COLUMNS ID:NUMBER KEY ID",
    )?;
    let insert = read_vector(alloc, tables.as_slice(), b"INSERT 1.2.3 1 NEW 0=7")?;
    let rec = RedoRec {
        scn: 100,
        vectors: Vectors::of(vec![in alloc; table, insert]?),
    };
    let text = show_record(alloc, &mut tables, &rec)?;
    let want = "RECORD 100\nTABLE 1 T.A COLUMNS ID:NUMBER KEY ID\nINSERT 1.2.3 T.A NEW ID=7\n";
    assert_eq!(rt; text.as_slice(), want.as_bytes());
    Ok(())
}

#[test]
fn a_fault_is_shown_with_its_bytes(rt: HostRuntime) -> Result<(), Fail> {
    let line = show_fault(
        rt.alloc(),
        3,
        LogFault::Vector(VecFault::Kind),
        149,
        &[10, 0, 255],
    )?;
    assert_eq!(rt; line.as_slice(), b"FAULT 3 KIND 149 X'0A00FF'\n".as_slice());
    let line = show_fault(
        rt.alloc(),
        1,
        LogFault::Head(rl_value::HeadFault::Short),
        0,
        &[],
    )?;
    assert_eq!(rt; line.as_slice(), b"FAULT 1 HEADER SHORT 0\n".as_slice());
    Ok(())
}

const HEAD: Header = Header {
    seq: 1,
    dbid: 9,
    first: 100,
    next: 200,
    count: 3,
};

// The lines behind those of the header that a log's bytes give, so many of them at a time.
fn shown(alloc: Global, bytes: &[u8], size: usize) -> Result<Vec<u8>, Fail>
    requires some { 0 < size }
{
    let mut log = Shown::new(alloc, HEAD);
    let mut text = Vec::new(alloc);
    for piece in bytes.chunks(size) {
        let (next, lines) = log.feed(alloc, piece)?;
        text.extend_from_slice(lines.as_slice())?;
        log = next;
    }
    let (line, _) = log.finish(alloc)?;
    text.extend_from_slice(line.as_slice())?;
    Ok(text)
}

#[test]
fn a_log_is_shown_in_pieces_of_any_length(rt: HostRuntime) -> Result<(), Fail> {
    let want =
        "RECORD 100\nTABLE 1 T.A COLUMNS ID:NUMBER KEY ID\nDICTEND\nRECORD 101\nSTART 1.2.3\n\
        INSERT 1.2.3 T.A NEW ID=7\nRECORD 102\nCOMMIT 1.2.3\n";
    for size in [1, 7, 200] {
        let text = shown(rt.alloc(), &FIRST_LOG[40..], size)?;
        assert_eq!(rt; text.as_slice(), want.as_bytes(), "at {size}");
    }
    Ok(())
}

#[test]
fn a_fault_ends_what_is_shown(rt: HostRuntime) -> Result<(), Fail> {
    let mut log = FIRST_LOG;
    log[98] = 10;
    let text = shown(rt.alloc(), &log[75..], 7)?;
    let want = "FAULT 1 KIND 63 X'0A000100020000000300000001000100'\n";
    assert_eq!(rt; text.as_slice(), want.as_bytes());
    let text = shown(rt.alloc(), &FIRST_LOG[123..145], 7)?;
    assert_eq!(rt; text.as_slice(), b"FAULT 1 TRUNCATED 40\n".as_slice());
    Ok(())
}
