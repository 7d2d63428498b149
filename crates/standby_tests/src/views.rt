//! What no clause says: that ample memory is enough to print each view.
use log_registry::{LogEntry, Registry};
use redo_reader::Place;
use redo_spec::Header;
use rl_base::{Events, Line, Lines};
use rl_value::Xid;
use skip_guard::{Level, Pattern, SkipEntry, SkipRule, Skips};
use standby_spec::Mark;
use std::alloc::Global;
use std::test::Fail;
use view_lines::{event_lines, log_lines, progress_lines, skip_lines, state_lines};

fn text_of(alloc: Global, lines: &Lines) -> Result<Vec<u8>, Fail> {
    let mut text = Vec::new(alloc);
    for line in lines.items() {
        text.extend_from_slice(line.items())?;
        text.push(b'\n')?;
    }
    Ok(text)
}

fn put_log(logs: &mut Registry, seq: u32, first: u64, count: u32) -> Result<(), Fail> {
    if logs.has(seq) {
        return Err(Fail::from("there already"));
    }
    let head = Header {
        seq,
        dbid: 9,
        first,
        next: first.saturating_add(10),
        count,
    };
    logs.insert(LogEntry { head, length: 100 })?;
    Ok(())
}

// Logs 1 and 4.
fn two_logs(alloc: Global) -> Result<Registry, Fail> {
    let mut logs = Registry::new(alloc);
    put_log(&mut logs, 1, 100, 3)?;
    put_log(&mut logs, 4, 130, 2)?;
    Ok(logs)
}

fn mark() -> Mark {
    Mark {
        q: 2,
        m: 3,
        before: 0,
        place: Place {
            seq: 1,
            at: 90,
            done: 2,
            rec: 2,
        },
        q_scn: 101,
        m_scn: 102,
        commit_scn: 99,
        n: 1,
    }
}

#[test]
fn logs_are_shown_with_their_gaps(rt: HostRuntime) -> Result<(), Fail> {
    let alloc = rt.alloc();
    let logs = two_logs(alloc)?;
    let mark = mark();
    let progress = progress_lines(alloc, 102, 99, Some(&mark), &logs)?;
    let want = "APPLIED_SCN 102\nRESTART_SCN 101\nMINING_SCN 102\nLATEST_SCN 139\n";
    assert_eq!(rt; text_of(alloc, &progress)?.as_slice(), want.as_bytes());
    let log = log_lines(alloc, &logs)?;
    let want = "LOG 1 100 110 3\nGAP 2 3\nLOG 4 130 140 2\n";
    assert_eq!(rt; text_of(alloc, &log)?.as_slice(), want.as_bytes());
    Ok(())
}

fn two_rules(alloc: Global) -> Result<Skips, Fail> {
    let mut skips = Skips::new(alloc);
    let Some(pattern) = Pattern::of(alloc, b"HR.%")? else {
        return Err(Fail::from("no pattern"));
    };
    let tables = SkipEntry {
        rule: SkipRule::Tables(pattern),
        from: 0,
    };
    let xid = Xid {
        usn: 1,
        slot: 2,
        sqn: 3,
    };
    let transaction = SkipEntry {
        rule: SkipRule::Transaction(xid),
        from: 5,
    };
    if skips.add(tables).is_err() || skips.add(transaction).is_err() {
        return Err(Fail::from("a rule was refused"));
    }
    Ok(skips)
}

#[test]
fn rules_and_events_are_shown_in_order(rt: HostRuntime) -> Result<(), Fail> {
    let alloc = rt.alloc();
    let skip = skip_lines(alloc, &two_rules(alloc)?)?;
    let want = "SKIP TABLE HR.% 0\nSKIP TRANSACTION 1.2.3 5\n";
    assert_eq!(rt; text_of(alloc, &skip)?.as_slice(), want.as_bytes());
    let mut last = Line::new(alloc);
    last.extend(b"GAP")?;
    let state = state_lines(alloc, Level::Standby, 2, 7, &last)?;
    let want = "GUARD STANDBY\nCOMMITS 2\nROWS 7\nLAST GAP\n";
    assert_eq!(rt; text_of(alloc, &state)?.as_slice(), want.as_bytes());
    let mut events = Events::new(alloc)?;
    events.note(last);
    let shown = event_lines(alloc, &events)?;
    assert_eq!(rt;
        text_of(alloc, &shown)?.as_slice(),
        b"EVENT 1 GAP\n".as_slice()
    );
    Ok(())
}
