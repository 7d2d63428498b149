//! A keeper over a real file: what is put and dropped, beside a second keeper and after it, more pairs than one block has, and
//! what lies in the file's place that is no database.

ghost use Rattle.std.specs.Prelude.{◌≡◌, IsTrue, IfOk};
ghost use Rattle.rl_ports.specs.Store.{is_key, key_of, have_keys};

use rl_ports::{Batch, Item, Keeper};
use rl_value::Bytes;
use sqlite_keeper::{Reason, SqliteKeeper};
use std::alloc::{AllocError, Global};
use std::fs;
use std::test::Fail;

const PATH: &str = "standby.db";

const LOG_PATH: &str = "standby.db-wal";

// More pairs than one block has, in an area of their own: their keys are the numbers from 1 on.
const MANY: u16 = 300;

const MANY_AREA: u8 = 255;

// A commit: one pair is put, and the pair under another key is dropped, if there is one.
#[derive(Clone, Copy)]
struct Commit {
    area: u8,
    put: u16,
    value: u8,
    dropped: u16,
}

// What is found behind a key: the key of the next pair and its value.
#[derive(Clone, Copy)]
struct Look {
    area: u8,
    behind: u16,
    found: Found,
}

#[derive(Clone, Copy, PartialEq, Eq)]
enum Found {
    Next(u16, u8),
    End,
    Refused,
}

fn items_of(alloc: Global, commit: Commit) -> Result<Batch, AllocError>
    ensures { IfOk result (λ batch. IsTrue (have_keys batch)) }
{
    let put = put_of(alloc, commit)?;
    let dropped = drop_of(alloc, commit)?;
    Ok(Batch::of(vec![in alloc; put, dropped]?))
}

fn has_key(item: &Item) -> bool
    ensures { result ≡ is_key (key_of item.now) }
{
    let key = match item {
        Item::Put { key, .. } => key,
        Item::Drop { key, .. } => key,
    };
    match key.bytes() {
        [] => false,
        [_first, _rest @ ..] => true,
    }
}

fn all_have_keys(items: &[Item]) -> bool
    ensures { result ≡ have_keys items.now }
{
    items.iter().all(|item| has_key(item))
}

fn put_of(alloc: Global, commit: Commit) -> Result<Item, AllocError>
    ensures { IfOk result (λ item. IsTrue (is_key (key_of item))) }
{
    let [high, low] = commit.put.to_be_bytes();
    let key = Bytes::of(vec![in alloc; high, low]?);
    let value = Bytes::of(vec![in alloc; commit.value]?);
    Ok(Item::Put {
        area: commit.area,
        key,
        value,
    })
}

fn drop_of(alloc: Global, commit: Commit) -> Result<Item, AllocError>
    ensures { IfOk result (λ item. IsTrue (is_key (key_of item))) }
{
    let [high, low] = commit.dropped.to_be_bytes();
    let key = Bytes::of(vec![in alloc; high, low]?);
    Ok(Item::Drop {
        area: commit.area,
        key,
    })
}

fn commits<K: Keeper>(keeper: &mut K, alloc: Global, commit: Commit) -> bool {
    match items_of(alloc, commit) {
        Ok(batch) => keeper.commit(&batch).is_ok(),
        Err(_) => false,
    }
}

fn commits_all<K: Keeper>(keeper: &mut K, alloc: Global, all: &[Commit]) -> bool {
    for commit in all {
        if !commits(keeper, alloc, *commit) {
            return false;
        }
    }
    true
}

fn seen_behind<K: Keeper>(keeper: &mut K, area: u8, key: &[u8]) -> Found {
    let Ok(found) = keeper.after(area, key) else {
        return Found::Refused;
    };
    let Some(pair) = found else {
        return Found::End;
    };
    match (pair.key.bytes(), pair.value.bytes()) {
        ([high, low], [value]) => Found::Next(u16::from_be_bytes([*high, *low]), *value),
        _ => Found::Refused,
    }
}

fn finds_all<K: Keeper>(keeper: &mut K, looks: &[Look]) -> bool {
    for look in looks {
        if seen_behind(keeper, look.area, look.behind.to_be_bytes().as_slice()) != look.found {
            return false;
        }
    }
    true
}

fn many_items(alloc: Global) -> Result<Vec<Item>, AllocError> {
    let mut items = Vec::with_capacity(alloc, usize::from(MANY))?;
    for number in 1..MANY + 1 {
        items.push(put_of(alloc, commit_of(MANY_AREA, number, 7, 0))?)?;
    }
    Ok(items)
}

fn fills<K: Keeper>(keeper: &mut K, alloc: Global) -> bool {
    let Ok(items) = many_items(alloc) else {
        return false;
    };
    if !all_have_keys(items.as_slice()) {
        return false;
    }
    let batch = Batch::of(items);
    keeper.commit(&batch).is_ok()
}

fn walks<K: Keeper>(keeper: &mut K) -> bool {
    for number in 0..MANY {
        let want = Found::Next(number + 1, 7);
        if seen_behind(keeper, MANY_AREA, number.to_be_bytes().as_slice()) != want {
            return false;
        }
    }
    seen_behind(keeper, MANY_AREA, MANY.to_be_bytes().as_slice()) == Found::End
}

fn commit_of(area: u8, put: u16, value: u8, dropped: u16) -> Commit {
    Commit {
        area,
        put,
        value,
        dropped,
    }
}

fn look_of(area: u8, behind: u16, found: Found) -> Look {
    Look {
        area,
        behind,
        found,
    }
}

// A pair is put that is dropped later, and one that is put again.
fn begins<K: Keeper>(keeper: &mut K, alloc: Global) -> bool {
    let all = [
        commit_of(1, 2, 11, 9),
        commit_of(0, 3, 12, 9),
        commit_of(0, 4, 13, 3),
        commit_of(1, 2, 14, 9),
    ];
    commits_all(keeper, alloc, all.as_slice())
}

fn finds<K: Keeper>(keeper: &mut K) -> bool {
    let looks = [
        look_of(0, 0, Found::Next(4, 13)),
        look_of(0, 4, Found::End),
        look_of(1, 0, Found::Next(2, 14)),
        look_of(1, 2, Found::End),
    ];
    finds_all(keeper, looks.as_slice())
}

// What a keeper is told to do and to find.
#[derive(Clone, Copy)]
enum Part {
    Fill,
    Find,
    Change,
}

// What was read ahead of a commit is not shown behind it.
fn changes<K: Keeper>(keeper: &mut K, alloc: Global) -> bool {
    let before = seen_behind(keeper, MANY_AREA, b"") == Found::Next(1, 7);
    before
        && commits(keeper, alloc, commit_of(MANY_AREA, 1, 8, 2))
        && seen_behind(keeper, MANY_AREA, b"\x00\x01") == Found::Next(3, 7)
        && seen_behind(keeper, MANY_AREA, b"") == Found::Next(1, 8)
}

fn does<K: Keeper>(keeper: &mut K, alloc: Global, part: Part) -> bool {
    match part {
        Part::Fill => begins(keeper, alloc) && fills(keeper, alloc),
        Part::Find => finds(keeper) && walks(keeper),
        Part::Change => changes(keeper, alloc),
    }
}

// What a keeper does from its beginning on. It is closed, or dropped, so that its log is left beside the file.
fn run(rt: &HostRuntime, part: Part, is_closed: bool) -> bool {
    let Ok(mut keeper) = SqliteKeeper::new(rt) else {
        return false;
    };
    if !does(&mut keeper, rt.alloc(), part) {
        return false;
    }
    !is_closed || keeper.close().is_ok()
}

// Why a new keeper's first call is refused, if it is.
fn refusal(rt: &HostRuntime) -> Option<Reason> {
    let Ok(mut keeper) = SqliteKeeper::new(rt) else {
        return None;
    };
    match seen_behind(&mut keeper, 1, b"") {
        Found::Refused => keeper.reason(),
        _ => None,
    }
}

// A keeper that is refused goes on once what kept it from the file is gone.
fn fills_once_the_folder_is_gone(rt: &HostRuntime) -> bool {
    let Ok(mut keeper) = SqliteKeeper::new(rt) else {
        return false;
    };
    let refused = seen_behind(&mut keeper, 1, b"") == Found::Refused;
    refused
        && keeper.reason() == Some(Reason::NotOpened)
        && fs::remove_dir(rt, PATH).is_ok()
        && does(&mut keeper, rt.alloc(), Part::Fill)
}

// A keeper beside one that has the file open is refused, and harms nothing.
fn stands_alone(rt: &HostRuntime) -> bool {
    let Ok(mut keeper) = SqliteKeeper::new(rt) else {
        return false;
    };
    finds(&mut keeper)
        && refusal(rt) == Some(Reason::InUse)
        && does(&mut keeper, rt.alloc(), Part::Find)
}

fn drop_files(rt: &HostRuntime) {
    let _ = fs::remove_file(rt, PATH);
    let _ = fs::remove_file(rt, LOG_PATH);
}

#[test]
fn what_is_kept_is_found_again(rt: HostRuntime) -> Result<(), Fail> {
    drop_files(&rt);
    fs::create_dir(&rt, PATH)?;
    assert!(rt; fills_once_the_folder_is_gone(&rt));
    assert!(rt; stands_alone(&rt));
    assert!(rt; run(&rt, Part::Find, true));
    // A closed file holds all alone.
    fs::remove_file(&rt, LOG_PATH)?;
    assert!(rt; run(&rt, Part::Change, false));
    drop_files(&rt);
    fs::write(&rt, PATH, b"no database\n".as_slice())?;
    assert!(rt; refusal(&rt) == Some(Reason::NoDatabase));
    drop_files(&rt);
    Ok(())
}
