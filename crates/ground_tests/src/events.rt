//! The table of exit codes, and that the calls which want memory succeed where there is some.

use rl_base::{Event, Events, Events9, Line, Lines, Status};
use rl_value::{Bytes, Name};
use std::test::Fail;

#[test]
fn each_status_has_its_code(rt: HostRuntime) -> Result<(), Fail> {
    let key = Bytes::of(vec![in rt.alloc(); 0]?);
    let cases = [
        (Status::Done, 0),
        (Status::Usage, 2),
        (Status::ArchiveFault, 3),
        (Status::SourceFault, 4),
        (Status::SinkFault, 5),
        (Status::KeeperFault, 6),
        (Status::SpillFault, 7),
        (Status::Gap, 8),
        (Status::Malformed, 9),
        (Status::Mismatch, 10),
        (Status::BadStatement(2), 11),
        (Status::BadKeeper { area: 5, key }, 12),
        (Status::NeedsThreads(2), 13),
        (Status::RowLimit, 14),
        (Status::Memory, 15),
        (Status::BadSpill(1), 16),
        (Status::NotBuilt, 17),
    ];
    for (status, want) in cases {
        assert_eq!(rt; status.copy()?.code(), want, "of {status:?}");
    }
    Ok(())
}

#[test]
fn a_line_is_made_in_pieces(rt: HostRuntime) -> Result<(), Fail> {
    let mut line = Line::new(rt.alloc());
    line.extend(b"END 10")?;
    line.push(b'2')?;
    let mut lines = Lines::of(vec![in rt.alloc()]?);
    lines.push(line.copy()?)?;
    let copy = lines.copy()?;
    assert_eq!(rt; copy.items().len(), 1);
    assert_eq!(rt; line.items(), b"END 102".as_slice());
    Ok(())
}

// An event's number and the length of its line.
fn shown(event: Option<&(u64, Line)>) -> Option<(u64, usize)> {
    let (number, line) = event?;
    Some((*number, line.items().len()))
}

#[test]
fn the_last_100_events_are_kept(rt: HostRuntime) -> Result<(), Fail> {
    let alloc = rt.alloc();
    let mut events = Events::new(alloc)?;
    for count in 1..=102 {
        let mut line = Line::new(alloc);
        if count % 2 == 1 {
            line.push(b'x')?;
        }
        events.note(line);
    }
    let copy = events.copy()?;
    let (mut lines, mut copies) = (events.lines(), copy.lines());
    for number in 3..=102 {
        let want = Some((number, number as usize % 2));
        assert_eq!(rt; shown(lines.next()), want);
        assert_eq!(rt; shown(copies.next()), want);
    }
    assert_eq!(rt; shown(lines.next()), None);
    Ok(())
}

#[test]
fn events_are_copied_in_order(rt: HostRuntime) -> Result<(), Fail> {
    let Some(session) = Name::of(b"S") else {
        return Err(Fail::from("no name"));
    };
    let items = vec![in rt.alloc();
        (Event::Cut, 65536),
        (Event::Query(session), 1),
        (Event::Drain, 1),
    ]?;
    let copy = Events9::of(items).copy()?;
    let kinds = matches!(
        copy.items(),
        [(Event::Cut, _), (Event::Query(_), _), (Event::Drain, _)]
    );
    assert!(rt; kinds);
    for (item, want) in copy.items().iter().zip([65536, 1, 1]) {
        assert_eq!(rt; item.1, want);
    }
    Ok(())
}
