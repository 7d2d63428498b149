//! What no clause says: that calls with ample memory succeed, and the limits of a script, of which no worked example computes.

use script::{ScriptFault, parse};
use std::alloc::{AllocError, Global};
use std::test::Fail;

// How many statements a script has, or its fault.
fn statement_count(alloc: Global, text: &[u8]) -> Result<usize, ScriptFault> {
    let script = parse(alloc, text)?;
    Ok(script.items().len())
}

#[test]
fn lines_are_statements_or_the_first_bad_line(rt: HostRuntime) -> Result<(), Fail> {
    let cases = [
        ("", Ok(0)),
        (
            "# A comment\n\nCREATE 9 1\r\nROW HR.EMP 1 'A b' NULL",
            Ok(2),
        ),
        (
            "SKIP TABLE HR.%\nSKIP TRANSACTION 1.2.3\nGUARD ALL\n",
            Ok(3),
        ),
        (
            "SESSION S\nQUERY S DURING 105 HR.EMP KEY 1\nPUT S HR.X X'0A'\n",
            Ok(3),
        ),
        (
            "MARK 1\nREPLAY 2 CACHE 384 EAGER 64 cut*65536 query:S drain\n",
            Ok(2),
        ),
        (
            "APPLY 16 16 EAGER 10000\nVIEW LOG\nREGISTER 2\nCHECK\n",
            Ok(4),
        ),
        ("CHECK\n\n#\nchecK\nX\n", Err(ScriptFault::Line(4))),
        ("CHECK \n", Err(ScriptFault::Line(1))),
        ("CHECK\r", Err(ScriptFault::Line(1))),
        ("REPLAY 1 drain*2", Err(ScriptFault::Line(1))),
        ("CHECK\nREGISTER 01\n", Err(ScriptFault::Line(2))),
    ];
    for (text, want) in cases {
        assert_eq!(rt;
            statement_count(rt.alloc(), text.as_bytes()),
            want,
            "of {text}"
        );
    }
    Ok(())
}

// A CHECK on each of so many lines.
fn checks(alloc: Global, count: usize) -> Result<Vec<u8>, AllocError> {
    let mut text = Vec::new(alloc);
    for _ in 0..count {
        text.extend_from_slice(b"CHECK\n")?;
    }
    Ok(text)
}

#[test]
fn a_script_has_10000_statements(rt: HostRuntime) -> Result<(), Fail> {
    let alloc = rt.alloc();
    let most = checks(alloc, 10_000)?;
    assert_eq!(rt; statement_count(alloc, &most), Ok(10_000));
    let more = checks(alloc, 10_001)?;
    assert_eq!(rt;
        statement_count(alloc, &more),
        Err(ScriptFault::Line(10_001))
    );
    Ok(())
}

// A line of CHECK, and then a comment that ends at this byte without a line end.
fn with_comment(alloc: Global, size: usize) -> Result<Vec<u8>, AllocError> {
    let mut text = vec![in alloc; b'#'; size]?;
    if size >= 6 {
        text[..6].copy_from_slice(b"CHECK\n");
    }
    Ok(text)
}

#[test]
fn a_script_has_a_mebibyte(rt: HostRuntime) -> Result<(), Fail> {
    let alloc = rt.alloc();
    let most = with_comment(alloc, 1_048_576)?;
    assert_eq!(rt; statement_count(alloc, &most), Ok(1));
    let more = with_comment(alloc, 1_048_577)?;
    assert_eq!(rt; statement_count(alloc, &more), Err(ScriptFault::Line(2)));
    Ok(())
}
