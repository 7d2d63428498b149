//! A small store that is loaded, its first bad key where one pair of it is another, and a keeper that fails at each call.
ghost use Rattle.std.specs.Prelude.{◌≡◌, IfOk};

use checkpoint::{Image, LoadFault, Loaded, load};
use rl_mem::{MemKeeper, SureKeeper};
use rl_ports::{Batch, Item, Keeper};
use rl_value::Bytes;
use std::alloc::Global;
use std::test::Fail;

// The database 9, the log 1, the base SCN 99, the guard ALL.
const STANDBY: [u8; 17] = [0, 0, 0, 9, 0, 0, 0, 1, 0, 0, 0, 0, 0, 0, 0, 99, 1];

// The header of log 1, which has SCNs 100 to 199 and 3 records, and its length, 146.
const LOG: [u8; 48] = [
    0x53, 0x52, 0x4c, 0x31, 0, 1, 0, 1, 0, 0, 0, 9, 0, 0, 0, 1, 0, 0, 0, 0, 0, 0, 0, 100, 0, 0, 0,
    0, 0, 0, 0, 200, 0, 0, 0, 3, 0, 0, 0, 0, 0, 0, 0, 0, 0, 0, 0, 146,
];

// The table T.A: one column ID, a number, which is the primary key.
const TABLE: [u8; 15] = [1, 0x54, 1, 0x41, 1, 2, 0x49, 0x44, 1, 0, 0, 0, 1, 0, 0];

// From the first commit on: the transaction 1.2.3.
const RULE: [u8; 17] = [0, 0, 0, 0, 0, 0, 0, 0, 2, 0, 1, 0, 2, 0, 0, 0, 3];

// The number 7, as a row and as its key in table 1.
const ROW: [u8; 9] = [1, 0, 0, 0, 0, 0, 0, 0, 7];

const ROW_PLACE: [u8; 13] = [0, 0, 0, 1, 1, 0, 0, 0, 0, 0, 0, 0, 7];

// One commit, at SCN 102.
const APPLIED: [u8; 16] = [0, 0, 0, 0, 0, 0, 0, 1, 0, 0, 0, 0, 0, 0, 0, 102];

// Record 3, at the end of log 1.
const MARK: [u8; 65] = [
    1, 0, 0, 0, 0, 0, 0, 0, 3, 0, 0, 0, 0, 0, 0, 0, 3, 0, 0, 0, 0, 0, 0, 0, 1, 0, 0, 0, 1, 0, 0, 0,
    0, 0, 0, 0, 146, 0, 0, 0, 3, 0, 0, 0, 0, 0, 0, 0, 102, 0, 0, 0, 0, 0, 0, 0, 102, 0, 0, 0, 0, 0,
    0, 0, 102,
];

fn bytes(alloc: Global, from: &[u8]) -> Result<Bytes, Fail>
    ensures { IfOk result (λ bytes. bytes ≡ from.now) }
{
    Ok(Bytes::of(Vec::from_slice(alloc, from)?))
}

fn put<K: Keeper>(
    alloc: Global,
    keeper: &mut K,
    area: u8,
    key: &[u8],
    value: &[u8],
) -> Result<(), Fail> {
    let [_, ..] = key else {
        return Err(Fail::from("no key"));
    };
    let key = bytes(alloc, key)?;
    let value = bytes(alloc, value)?;
    let batch = Batch::of(vec![in alloc; Item::Put { area, key, value }]?);
    match keeper.commit(&batch) {
        Ok(()) => Ok(()),
        Err(_) => Err(Fail::from("not put")),
    }
}

// The store of a standby after its first commit.
fn fill<K: Keeper>(alloc: Global, keeper: &mut K) -> Result<(), Fail> {
    put(alloc, keeper, 1, b"S", &STANDBY)?;
    put(alloc, keeper, 2, &[0, 0, 0, 1], &LOG)?;
    put(alloc, keeper, 3, &[0, 0, 0, 1], &TABLE)?;
    put(alloc, keeper, 4, &[0, 0, 0, 1], &RULE)?;
    put(alloc, keeper, 5, &ROW_PLACE, &ROW)?;
    put(alloc, keeper, 6, b"A", &APPLIED)?;
    put(alloc, keeper, 7, b"M", &MARK)
}

fn is_small_state(image: &Image) -> bool {
    image.dbid == 9
        && image.first == 1
        && image.base == 99
        && image.logs.has(1)
        && image.skips.entries().len() == 1
        && image.tables.count() == 1
        && image.n == 1
        && image.scn == 102
        && image.mark.is_some()
}

fn is_loaded(loaded: &Result<Loaded, LoadFault>) -> bool {
    match loaded {
        Ok(Loaded::Image(image)) => is_small_state(image),
        Ok(Loaded::Fresh) => false,
        Err(_) => false,
    }
}

#[test]
fn a_small_store_is_loaded(rt: HostRuntime) -> Result<(), Fail> {
    let alloc = rt.alloc();
    let mut keeper = SureKeeper::new(alloc);
    let fresh = match load(alloc, &mut keeper) {
        Ok(Loaded::Fresh) => true,
        _ => false,
    };
    assert_eq!(rt; fresh, true, "an empty store");
    fill(alloc, &mut keeper)?;
    let loaded = load(alloc, &mut keeper);
    assert_eq!(rt; is_loaded(&loaded), true, "the store of a standby");
    Ok(())
}

fn is_bad(loaded: &Result<Loaded, LoadFault>, area: u8, key: &[u8]) -> bool {
    match loaded {
        Err(
            LoadFault::BadKeeper {
                area: found,
                key: found_key,
            },
        ) => *found == area && found_key.bytes() == key,
        _ => false,
    }
}

// The pair is the first bad one once it is put into the small store.
fn is_bad_there(alloc: Global, area: u8, key: &[u8], value: &[u8]) -> Result<bool, Fail> {
    let mut keeper = SureKeeper::new(alloc);
    fill(alloc, &mut keeper)?;
    put(alloc, &mut keeper, area, key, value)?;
    let loaded = load(alloc, &mut keeper);
    Ok(is_bad(&loaded, area, key))
}

// No guard; a log under another sequence; a table twice; a rule twice; a row under another key; a second count; a second mark. A
// pair of another area is not looked at.
#[test]
fn a_pair_that_is_not_in_the_layout_is_told(rt: HostRuntime) -> Result<(), Fail> {
    let alloc = rt.alloc();
    let cases: [(u8, &[u8], &[u8], bool); 8] = [
        (1, b"S", &STANDBY[..16], true),
        (2, &[0, 0, 0, 2], &LOG, true),
        (3, &[0, 0, 0, 2], &TABLE, true),
        (4, &[0, 0, 0, 2], &RULE, true),
        (5, &[0, 0, 0, 1, 0], &ROW, true),
        (6, b"B", &APPLIED, true),
        (7, b"N", &MARK, true),
        (9, b"X", &MARK, false),
    ];
    for (area, key, value, want) in cases {
        let bad = is_bad_there(alloc, area, key, value)?;
        assert_eq!(rt; bad, want, "in area {area}");
    }
    Ok(())
}

fn has_failed(loaded: &Result<Loaded, LoadFault>) -> bool {
    match loaded {
        Err(LoadFault::KeeperFault) => true,
        _ => false,
    }
}

// Whether a load fails where the call of this number does. The store is filled by the first seven, and loaded by fifteen.
fn fails_at(alloc: Global, call: u64) -> Result<bool, Fail> {
    let mut keeper = MemKeeper::new(alloc, vec![in alloc; call]?, false);
    fill(alloc, &mut keeper)?;
    let loaded = load(alloc, &mut keeper);
    Ok(has_failed(&loaded))
}

#[test]
fn a_failure_of_the_keeper_is_told(rt: HostRuntime) -> Result<(), Fail> {
    let alloc = rt.alloc();
    for call in 8..24 {
        let failed = fails_at(alloc, call)?;
        assert_eq!(rt; failed, call < 23, "at {call}");
    }
    Ok(())
}
