//! What no clause says: that ample memory is enough to ask tables that are stored, and to print what they answer.
ghost use Rattle.std.specs.Prelude.{IfOk, IsTrue};
ghost use Rattle.redo_vec.specs.Forms.{is_line30};
ghost use Rattle.redo_spec.specs.Tables.{definitions_of};
ghost use Rattle.row_apply.specs.Overlaid.{overlaid, are_of};
ghost use Rattle.row_apply.specs.Soundness.{AreSound};

use query_sessions::{Ask, Asks, Form, Query, Session, answer_lines, ask_lines, may_be_asked};
use redo_dict::Dict;
use redo_vec::{Change, Column, Columns, KeyColumns, KeyLists, Kind, Line30, Op, TableRow};
use rl_base::Lines;
use rl_value::{Cells, Name, Row, Value, Xid};
use row_apply::laws::{no_writes_change_nothing, tables_without_rows_are_sound};
use row_apply::{Overlay, effect};
use std::alloc::Global;
use std::test::Fail;
use table_store::{Tables, View};

/// The form of a case, a key by its ID.
#[derive(Clone, Copy)]
enum Asked {
    All,
    Count,
    Key(i64),
}

fn word(alloc: Global, bytes: &[u8]) -> Result<Line30, Fail>
    requires { IsTrue (is_line30 bytes.now) }
{
    Ok(Line30::of(Vec::from_slice(alloc, bytes)?))
}

// T.A with ID, a number and its primary key.
fn table(alloc: Global) -> Result<TableRow, Fail> {
    let id = Column {
        name: word(alloc, b"ID")?,
        kind: Kind::Number,
        nullable: false,
    };
    let primary = KeyColumns::of(vec![in alloc; 0]?);
    Ok(TableRow {
        id: 1,
        schema: word(alloc, b"T")?,
        name: word(alloc, b"A")?,
        columns: Columns::of(vec![in alloc; id]?),
        keys: KeyLists::of(vec![in alloc; primary]?),
    })
}

fn insert(alloc: Global, id: i64) -> Result<Change, Fail> {
    Ok(Change {
        xid: Xid {
            usn: 1,
            slot: 2,
            sqn: 3,
        },
        op: Op::Insert,
        table: 1,
        old: Cells::of(Vec::new(alloc)),
        new: Cells::of(vec![in alloc; (0, Value::Number(id))]?),
    })
}

// T.A without rows.
fn empty(alloc: Global) -> Result<Tables, Fail>
    ensures sound { IfOk result (λ tables. AreSound tables.tables) }
{
    let mut dict = Dict::new(alloc);
    let added = dict.add(table(alloc)?).is_ok();
    if !added {
        return Err(Fail::from("no table"));
    }
    tables_without_rows_are_sound();
    match Tables::new(alloc, dict) {
        Ok(tables) => Ok(tables),
        Err(_) => Err(Fail::from("no memory")),
    }
}

// The writes that insert rows of these IDs.
fn inserts(alloc: Global, tables: &Tables, ids: &[i64]) -> Result<Overlay, Fail>
    requires sound { AreSound tables.now.tables }
    ensures sound { IfOk result (λ over. AreSound (overlaid tables.now.tables over)) }
    ensures of_tables { IfOk result (λ over. IsTrue (are_of (definitions_of tables.now.tables) over)) }
{
    let dict = tables.dict();
    let mut over = Overlay::new(alloc);
    no_writes_change_nothing();
    for id in ids {
        let change = insert(alloc, *id)?;
        if dict.check_change(&change).is_err() {
            return Err(Fail::from("an insert was refused"));
        }
        if effect(tables, dict, &mut over, &change).is_err() {
            return Err(Fail::from("an insert was not done"));
        }
    }
    Ok(over)
}

// T.A with the rows 1, 2 and 3, behind commit 2 at SCN 102.
fn three_rows(alloc: Global) -> Result<View, Fail> {
    let tables = empty(alloc)?;
    let writes = inserts(alloc, &tables, &[2, 1, 3])?.into_writes()?;
    match tables.written(&writes) {
        Ok(tables) => Ok(View {
            scn: 102,
            n: 2,
            tables,
        }),
        Err(_) => Err(Fail::from("a commit was not made")),
    }
}

fn form(alloc: Global, asked: Asked) -> Result<Form, Fail> {
    match asked {
        Asked::All => Ok(Form::All),
        Asked::Count => Ok(Form::Count),
        Asked::Key(id) => Ok(Form::Key(Row::of(vec![in alloc; Value::Number(id)]?))),
    }
}

fn session() -> Result<Session, Fail> {
    match Name::of(b"S") {
        None => Err(Fail::from("no name")),
        Some(name) => Ok(Session::new(name)),
    }
}

fn text_of(alloc: Global, lines: &Lines) -> Result<Vec<u8>, Fail> {
    let mut text = Vec::new(alloc);
    for line in lines.items() {
        text.extend_from_slice(line.items())?;
        text.push(b'\n')?;
    }
    Ok(text)
}

// The lines that a new session is answered, where at most so many rows may be.
fn answered(alloc: Global, view: &View, asked: Asked, most: u64) -> Result<Vec<u8>, Fail> {
    let query = Query {
        table: 1,
        form: form(alloc, asked)?,
    };
    let query = query.copy()?;
    if !may_be_asked(view.tables.dict(), &query) {
        return Err(Fail::from("no query of the tables"));
    }
    let mut session = session()?.copy();
    if !session.may_see(view) {
        return Err(Fail::from("too old"));
    }
    let answer = session.ask(alloc, view, &query, most)?.copy()?;
    if session.floor != view.n {
        return Err(Fail::from("not seen"));
    }
    let lines = answer_lines(alloc, &session.name, view.scn, &answer)?;
    text_of(alloc, &lines)
}

#[test]
fn each_form_has_its_answer(rt: HostRuntime) -> Result<(), Fail> {
    let alloc = rt.alloc();
    let view = three_rows(alloc)?;
    let cases = [
        (Asked::All, 3, "ANSWER S 102 3\nROW 1\nROW 2\nROW 3\n"),
        (Asked::All, 2, "MANY S 102 3\n"),
        (Asked::Count, 3, "COUNT S 102 3\n"),
        (Asked::Count, 2, "MANY S 102 3\n"),
        (Asked::Key(2), 1, "ANSWER S 102 1\nROW 2\n"),
        (Asked::Key(2), 0, "MANY S 102 1\n"),
        (Asked::Key(4), 0, "ANSWER S 102 0\n"),
    ];
    for (asked, most, want) in cases {
        let text = answered(alloc, &view, asked, most)?;
        assert_eq!(rt; text.as_slice(), want.as_bytes(), "for {want}");
    }
    Ok(())
}

#[test]
fn a_query_that_waits_is_answered_once(rt: HostRuntime) -> Result<(), Fail> {
    let alloc = rt.alloc();
    let view = three_rows(alloc)?;
    let later = View {
        scn: 103,
        n: 3,
        tables: empty(alloc)?,
    };
    let waiting = Ask {
        line: 3,
        session: session()?.name,
        floor: 0,
        scn: 102,
        query: Query {
            table: 1,
            form: Form::Count,
        },
        answer: None,
    };
    let due = waiting.is_due(view.scn);
    let asks = Asks::of(vec![in alloc; waiting]?).with_answers(alloc, &view)?;
    let asks = asks.copy()?.with_answers(alloc, &later)?;
    let lines = ask_lines(alloc, &asks)?;
    assert!(rt; due);
    assert_eq!(rt;
        text_of(alloc, &lines)?.as_slice(),
        b"COUNT S 102 3\n".as_slice()
    );
    Ok(())
}
