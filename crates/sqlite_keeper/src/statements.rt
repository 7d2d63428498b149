//! The statements on the file, one function each, and the texts of them.
//!
//! The table `kept` has a row for each pair. A pair that is put again keeps its row: an upsert, since to replace a row would
//! write it elsewhere. A commit is one transaction, whose log is synced. The connection prepares each text once and keeps its
//! plan, so a statement is its text. After an error the connection is dropped, and what it had begun is gone with it. Only
//! `OpensAt` names the type of the file: a function over any store is proved in a tenth of the time.
use crate::pair_table::{Block, OpensAt, PairTable};
use crate::reason::{Reason, reason_of};
use rl_ports::{Item, Pair};
use rl_value::Bytes;
use sqlite::types::ValueRef;
use sqlite::{Alter, Connection, Error, File, FileStore, Row, params};

const TABLE_TEXT: &str = "\
CREATE TABLE IF NOT EXISTS kept (
    area INTEGER NOT NULL,
    key BLOB NOT NULL,
    value BLOB NOT NULL,
    PRIMARY KEY (area, key)
) STRICT";

const BEGIN_TEXT: &str = "BEGIN";

const PUT_TEXT: &str = "\
INSERT INTO kept (area, key, value) VALUES (?1, ?2, ?3)
ON CONFLICT (area, key) DO UPDATE SET value = excluded.value";

const DROP_TEXT: &str = "DELETE FROM kept WHERE area = ?1 AND key = ?2";

const COMMIT_TEXT: &str = "COMMIT";

const BLOCK_TEXT: &str =
    "SELECT key, value FROM kept WHERE area = ?1 AND key > ?2 ORDER BY key LIMIT 256";

/// The most pairs that one block has, as its text says.
const BLOCK_PAIRS: usize = 256;

impl OpensAt for Connection<FileStore<File>> {
    fn open_at(rt: &HostRuntime, path: &str) -> Result<Connection<FileStore<File>>, Error> {
        Connection::open(rt, path)
    }

    fn end(self) -> Result<(), Error> {
        self.close()
    }
}

impl<S: Alter + Drop> PairTable for Connection<S> {
    fn make(&mut self) -> Result<(), Reason> {
        run(self, TABLE_TEXT, &[])
    }

    fn commit(&mut self, items: &[Item]) -> Result<(), Reason> {
        commit_items(self, items)
    }

    fn block_after(&mut self, area: u8, key: &[u8]) -> Result<Block, Reason> {
        block_after(self, area, key)
    }
}

// The call alone, generic and with any text: what SQLite's crate promises of the rows is long, and over a type or a text that is
// known it would be worked out.
fn rows_of<S: Alter>(
    conn: &mut Connection<S>,
    text: &str,
    params: &[ValueRef<'_>],
) -> Result<Vec<Row>, Error> {
    conn.query_all(text, params)
}

// Runs a statement that shows no rows.
fn run<S: Alter>(
    conn: &mut Connection<S>,
    text: &str,
    params: &[ValueRef<'_>],
) -> Result<(), Reason> {
    match conn.execute(text, params) {
        Ok(_) => Ok(()),
        Err(error) => Err(reason_of(error)),
    }
}

// Does the items in their order, all or none.
fn commit_items<S: Alter>(conn: &mut Connection<S>, items: &[Item]) -> Result<(), Reason> {
    run(conn, BEGIN_TEXT, &[])?;
    for item in items {
        do_item(conn, item)?;
    }
    run(conn, COMMIT_TEXT, &[])
}

fn do_item<S: Alter>(conn: &mut Connection<S>, item: &Item) -> Result<(), Reason> {
    match item {
        Item::Put { area, key, value } => {
            run(
                conn,
                PUT_TEXT,
                params![i64::from(*area), key.bytes(), value.bytes()],
            )
        }
        Item::Drop { area, key } => run(conn, DROP_TEXT, params![i64::from(*area), key.bytes()]),
    }
}

fn block_after<S: Alter>(conn: &mut Connection<S>, area: u8, key: &[u8]) -> Result<Block, Reason> {
    match rows_of(conn, BLOCK_TEXT, params![i64::from(area), key]) {
        Ok(rows) => block_of(rows),
        Err(error) => Err(reason_of(error)),
    }
}

fn block_of(rows: Vec<Row>) -> Result<Block, Reason> {
    let Ok(mut pairs) = Vec::with_capacity(*rows.allocator(), rows.len()) else {
        return Err(Reason::Memory);
    };
    for row in rows.as_slice() {
        if pairs.push(pair_of(row)?).is_err() {
            return Err(Reason::Memory);
        }
    }
    pairs.reverse();
    Ok(Block {
        pairs,
        whole: rows.len() < BLOCK_PAIRS,
    })
}

fn pair_of(row: &Row) -> Result<Pair, Reason> {
    let key = blob(row, 0)?;
    let value = blob(row, 1)?;
    Ok(Pair { key, value })
}

fn blob(row: &Row, at: usize) -> Result<Bytes, Reason> {
    let found: Result<Vec<u8>, Error> = row.get(at);
    match found {
        Ok(bytes) => Ok(Bytes::of(bytes)),
        Err(error) => Err(reason_of(error)),
    }
}
