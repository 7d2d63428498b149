//! Each part of a state as its item, and read again from that item's key and value. The bytes are those of the format.
use kept_layout::{
    Identity, applied_in, applied_item, identity_in, log_in, log_item, mark_in, mark_item, row_in,
    row_item, skip_in, skip_item, standby_item, table_in, table_item,
};
use log_registry::{LogEntry, Registry};
use redo_reader::Place;
use redo_wire::Header;
use rl_ports::Item;
use skip_guard::Level;
use standby_spec::Mark;
use std::test::Fail;

const IDENTITY: Identity = Identity {
    dbid: 9,
    first: 1,
    base: 99,
    level: Level::Standby,
};

const STANDBY: [u8; 17] = [0, 0, 0, 9, 0, 0, 0, 1, 0, 0, 0, 0, 0, 0, 0, 99, 2];

const LOG: LogEntry = LogEntry {
    head: Header {
        seq: 1,
        dbid: 9,
        first: 100,
        next: 200,
        count: 3,
    },
    length: 146,
};

// The header of a first log, and its length.
const LOG_BYTES: [u8; 48] = [
    0x53, 0x52, 0x4c, 0x31, 0, 1, 0, 1, 0, 0, 0, 9, 0, 0, 0, 1, 0, 0, 0, 0, 0, 0, 0, 100, 0, 0, 0,
    0, 0, 0, 0, 200, 0, 0, 0, 3, 0, 0, 0, 0, 0, 0, 0, 0, 0, 0, 0, 146,
];

const MARK: Mark = Mark {
    q: 2,
    m: 3,
    before: 1,
    place: Place {
        seq: 1,
        at: 120,
        done: 2,
        rec: 2,
    },
    q_scn: 101,
    m_scn: 102,
    commit_scn: 101,
    n: 2,
};

// The version, q, m, before; the log, the offset, the records; three SCNs.
const MARK_BYTES: [u8; 65] = [
    1, 0, 0, 0, 0, 0, 0, 0, 2, 0, 0, 0, 0, 0, 0, 0, 3, 0, 0, 0, 0, 0, 0, 0, 1, 0, 0, 0, 1, 0, 0, 0,
    0, 0, 0, 0, 120, 0, 0, 0, 2, 0, 0, 0, 0, 0, 0, 0, 101, 0, 0, 0, 0, 0, 0, 0, 102, 0, 0, 0, 0, 0,
    0, 0, 101,
];

fn is_put(item: &Item, area: u8, key: &[u8], value: &[u8]) -> bool {
    match item {
        Item::Put {
            area: found,
            key: found_key,
            value: found_value,
        } => *found == area && found_key.bytes() == key && found_value.bytes() == value,
        Item::Drop { area: _, key: _ } => false,
    }
}

#[test]
fn the_standby_and_a_log_are_put_and_read(rt: HostRuntime) -> Result<(), Fail> {
    let alloc = rt.alloc();
    let item = standby_item(alloc, IDENTITY)?;
    let put = is_put(&item, 1, b"S", &STANDBY);
    assert_eq!(rt; put, true, "the standby");
    let read = identity_in(b"S", &STANDBY) == Some(IDENTITY);
    assert_eq!(rt; read, true, "the standby");
    let item = log_item(alloc, LOG)?;
    let put = is_put(&item, 2, &[0, 0, 0, 1], &LOG_BYTES);
    assert_eq!(rt; put, true, "the log");
    let read = log_in(IDENTITY, &[0, 0, 0, 1], &LOG_BYTES) == Some(LOG);
    assert_eq!(rt; read, true, "the log");
    Ok(())
}

#[test]
fn the_count_and_the_mark_are_put_and_read(rt: HostRuntime) -> Result<(), Fail> {
    let alloc = rt.alloc();
    let item = applied_item(alloc, 2, 104)?;
    let value = [0, 0, 0, 0, 0, 0, 0, 2, 0, 0, 0, 0, 0, 0, 0, 104];
    let put = is_put(&item, 6, b"A", &value);
    assert_eq!(rt; put, true, "the count");
    let read = applied_in(b"A", &value) == Some((2, 104));
    assert_eq!(rt; read, true, "the count");
    let item = mark_item(alloc, MARK)?;
    let put = is_put(&item, 7, b"M", &MARK_BYTES);
    assert_eq!(rt; put, true, "the mark");
    let mut logs = Registry::new(alloc);
    if !logs.has(1) {
        logs.insert(LOG)?;
    }
    let read = mark_in(b"M", &MARK_BYTES, &logs, 2) == Some(MARK);
    assert_eq!(rt; read, true, "the mark");
    let early = mark_in(b"M", &MARK_BYTES, &logs, 0).is_none();
    assert_eq!(rt; early, true, "a mark behind more commits than are applied");
    Ok(())
}

// The table T.A with the id 1: one column ID, a number, which is the primary key.
const TABLE: [u8; 15] = [1, 0x54, 1, 0x41, 1, 2, 0x49, 0x44, 1, 0, 0, 0, 1, 0, 0];

#[test]
fn a_table_is_read_and_put(rt: HostRuntime) -> Result<(), Fail> {
    let alloc = rt.alloc();
    let Some(table) = table_in(alloc, &[0, 0, 0, 1], &TABLE)? else {
        return Err(Fail::from("no table"));
    };
    let item = table_item(alloc, &table)?;
    let put = is_put(&item, 3, &[0, 0, 0, 1], &TABLE);
    assert_eq!(rt; put, true);
    let short = table_in(alloc, &[0, 0, 0, 1], &TABLE[..14])?.is_none();
    assert_eq!(rt; short, true, "a byte too few");
    Ok(())
}

// Behind the fourth commit: any table of HR.
const RULE: [u8; 13] = [0, 0, 0, 0, 0, 0, 0, 4, 1, b'H', b'R', b'.', b'%'];

#[test]
fn a_skip_rule_is_read_and_put(rt: HostRuntime) -> Result<(), Fail> {
    let alloc = rt.alloc();
    let Some(entry) = skip_in(alloc, 1, &[0, 0, 0, 1], &RULE)? else {
        return Err(Fail::from("no rule"));
    };
    let item = skip_item(alloc, 1, &entry)?;
    let put = is_put(&item, 4, &[0, 0, 0, 1], &RULE);
    assert_eq!(rt; put, true);
    let other = skip_in(alloc, 2, &[0, 0, 0, 1], &RULE)?.is_none();
    assert_eq!(rt; other, true, "under another number");
    Ok(())
}

// The number 7, Null, and the text x@a.
const ROW: [u8; 16] = [1, 0, 0, 0, 0, 0, 0, 0, 7, 0, 2, 0, 3, b'x', b'@', b'a'];

const PLACE: [u8; 13] = [0, 0, 0, 2, 1, 0, 0, 0, 0, 0, 0, 0, 7];

#[test]
fn a_row_is_read_and_put(rt: HostRuntime) -> Result<(), Fail> {
    let alloc = rt.alloc();
    let Some(row) = row_in(alloc, &ROW)? else {
        return Err(Fail::from("no row"));
    };
    let Some(key) = row_in(alloc, &PLACE[4..])? else {
        return Err(Fail::from("no key"));
    };
    let item = row_item(alloc, 2, &key, &row)?;
    let put = is_put(&item, 5, &PLACE, &ROW);
    assert_eq!(rt; put, true);
    let short = row_in(alloc, &ROW[..15])?.is_none();
    assert_eq!(rt; short, true, "a text that is not whole");
    let many = row_in(alloc, &[0; 33])?.is_none();
    assert_eq!(rt; many, true, "33 values");
    Ok(())
}
