//! What no clause says: that ample memory is enough for jobs, one behind the other, for snapshots of their work and for its writes.

use eager_work::{Job, Work, run_job};
use lcr::{Chunk, Lcr, is_chunk};
use redo_dict::Dict;
use redo_lines::read_vector;
use redo_vec::Vector;
use rl_value::{Pos, Xid};
use row_apply::Write;
use skip_guard::{Pattern, SkipEntry, SkipRule, Skips};
use std::alloc::Global;
use std::test::Fail;
use table_store::Tables;

const TABLES: [&str; 3] = [
    "TABLE 1 T.A COLUMNS ID:NUMBER KEY ID",
    "TABLE 2 T.B COLUMNS ID:NUMBER KEY ID",
    "TABLE 3 T.C COLUMNS ID:NUMBER KEY ID",
];

const ONE: &str = "INSERT 1.2.3 T.A NEW ID=1";

const TWO: &str = "INSERT 1.2.3 T.A NEW ID=2";

const THREE: &str = "INSERT 1.2.3 T.A NEW ID=3";

const ONE_GOES: &str = "DELETE 1.2.3 T.A OLD ID=1";
// T.B is passed over by a rule, and T.C is a table that the base does not have.
const SKIPPED: &str = "INSERT 1.2.3 T.B NEW ID=1";

const UNKNOWN: &str = "INSERT 1.2.3 T.C NEW ID=1";

// Tables without rows, the tables that the lines of changes name, and the rules.
#[derive(Drop)]
struct World {
    tables: Tables,
    names: Dict,
    skips: Skips,
}

fn dictionary(alloc: Global, lines: &[&'static str]) -> Result<Dict, Fail> {
    let mut dict = Dict::new(alloc);
    for line in lines {
        let Vector::Table(table) = read_vector(alloc, &[], line.as_bytes())? else {
            return Err(Fail::from("no table"));
        };
        if dict.add(table).is_err() {
            return Err(Fail::from("a table that is refused"));
        }
    }
    Ok(dict)
}

// The rule that passes T.B over.
fn rules(alloc: Global) -> Result<Skips, Fail> {
    let Some(pattern) = Pattern::of(alloc, b"T.B")? else {
        return Err(Fail::from("no pattern"));
    };
    let mut skips = Skips::new(alloc);
    let entry = SkipEntry {
        rule: SkipRule::Tables(pattern),
        from: 0,
    };
    match skips.add(entry) {
        Ok(()) => Ok(skips),
        Err(_) => Err(Fail::from("a rule that is refused")),
    }
}

fn empty_world(alloc: Global) -> Result<World, Fail> {
    let dict = dictionary(alloc, &TABLES[..2])?;
    let names = dictionary(alloc, &TABLES)?;
    let skips = rules(alloc)?;
    match Tables::new(alloc, dict) {
        Ok(tables) => Ok(World {
            tables,
            names,
            skips,
        }),
        Err(_) => Err(Fail::from("no memory")),
    }
}

// The change of a line, at this vector of record 2.
fn placed(alloc: Global, names: &Dict, vec: u8, line: &str) -> Result<Lcr, Fail> {
    match read_vector(alloc, names.tables(), line.as_bytes())? {
        Vector::Change(change) => Ok(Lcr {
            pos: Pos { rec: 2, vec },
            change,
        }),
        _ => Err(Fail::from("no change")),
    }
}

// The changes of these lines, at the vectors from this one on.
fn chunk(alloc: Global, names: &Dict, from: u8, lines: &[&'static str]) -> Result<Chunk, Fail> {
    let mut items = Vec::new(alloc);
    let mut vec = from;
    for line in lines {
        items.push(placed(alloc, names, vec, line)?)?;
        vec = vec.saturating_add(1);
    }
    if !is_chunk(&items) {
        return Err(Fail::from("no chunk"));
    }
    Ok(Chunk::of(items))
}

// The work after a chunk of these changes behind other work.
fn worked(
    alloc: Global,
    world: &World,
    before: Work,
    from: u8,
    lines: &[&'static str],
) -> Result<Work, Fail> {
    let job = Job {
        id: 1,
        start: Pos { rec: 1, vec: 1 },
        xid: Xid {
            usn: 1,
            slot: 2,
            sqn: 3,
        },
        chunk: chunk(alloc, &world.names, from, lines)?,
        water: 0,
        before,
    };
    match run_job(job, &world.tables, 0, world.tables.dict(), &world.skips) {
        Ok(outcome) => Ok(outcome.after),
        Err(_) => Err(Fail::from("no memory")),
    }
}

/// The vector at which work is stuck, how many rows it writes, and how many of them are there then.
type Told = (Option<u8>, usize, usize);

fn live_count(writes: &[Write]) -> usize {
    writes.iter().filter(|write| write.row.is_some()).count()
}

fn told(work: &Work) -> Result<Told, Fail> {
    let writes = work.writes()?;
    let stuck = work.stuck().map(|stuck| stuck.0.vec);
    Ok((stuck, writes.items().len(), live_count(writes.items())))
}

fn undo(work: &mut Work, undos: u8) {
    for _ in 0..undos {
        work.undo_one();
    }
}

// What is told of the work of two chunks, between which some changes are taken back.
fn told_of_two(
    alloc: Global,
    first: &[&'static str],
    undos: u8,
    second: &[&'static str],
) -> Result<Told, Fail> {
    let world = empty_world(alloc)?;
    let mut work = worked(alloc, &world, Work::new(alloc), 1, first)?;
    undo(&mut work, undos);
    told(&worked(alloc, &world, work, 10, second)?)
}

#[test]
fn a_job_goes_on_with_the_work_before_it(rt: HostRuntime) -> Result<(), Fail> {
    let cases: [(&'static [&'static str], u8, &'static [&'static str], Told); 7] = [
        (&[ONE, TWO], 0, &[THREE], (None, 3, 3)),
        // The change at vector 11 misses, and the one behind it is not tried.
        (&[ONE, TWO], 0, &[THREE, TWO, ONE_GOES], (Some(11), 3, 3)),
        // What an UNDO took back may come again.
        (&[ONE, TWO], 1, &[THREE, TWO, ONE_GOES], (None, 3, 2)),
        (&[ONE, ONE, TWO], 0, &[THREE], (Some(2), 1, 1)),
        // Two UNDOs take back what waits and the miss.
        (&[ONE, ONE, TWO], 2, &[THREE], (None, 2, 2)),
        (&[ONE, SKIPPED, UNKNOWN], 0, &[ONE_GOES], (None, 1, 0)),
        (&[ONE_GOES], 0, &[ONE], (Some(1), 0, 0)),
    ];
    for (first, undos, second, want) in cases {
        assert_eq!(rt; told_of_two(rt.alloc(), first, undos, second)?, want);
    }
    Ok(())
}

// Two chunks: a change that is passed over, one that misses, at vector 12, and one that waits behind it.
fn stuck_work(alloc: Global) -> Result<Work, Fail> {
    let world = empty_world(alloc)?;
    let first = worked(alloc, &world, Work::new(alloc), 1, &[ONE, TWO])?;
    worked(alloc, &world, first, 10, &[ONE_GOES, SKIPPED, TWO, THREE])
}

// What is told of a snapshot after so many UNDOs, where they leave the work itself as it was.
fn told_undone(alloc: Global, undos: u8) -> Result<Option<Told>, Fail> {
    let work = stuck_work(alloc)?;
    let mut undone = work.snapshot()?;
    undo(&mut undone, undos);
    let found = told(&undone)?;
    if told(&work)? != (Some(12), 2, 1) {
        return Ok(None);
    }
    Ok(Some(found))
}

#[test]
fn an_undo_of_a_snapshot_leaves_the_work(rt: HostRuntime) -> Result<(), Fail> {
    let cases = [
        (0, (Some(12), 2, 1)),
        (1, (Some(12), 2, 1)),
        (2, (None, 2, 1)),
        (3, (None, 2, 1)),
        (4, (None, 2, 2)),
        (5, (None, 1, 1)),
        (6, (None, 0, 0)),
        (7, (None, 0, 0)),
    ];
    for (undos, want) in cases {
        assert_eq!(rt;
            told_undone(rt.alloc(), undos)?,
            Some(want),
            "after {undos} UNDOs"
        );
    }
    Ok(())
}
