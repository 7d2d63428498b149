//! The one table of a workload, LOAD.ACC, and the changes of its rows.
//!
//! Sums and numbers are tested for their size, since nothing here says how large a balance may be. In a workload none is too
//! large: each of its logs has a spelling (`laws.rt`).
ghost use Rattle.std.specs.Prelude.{◌≡◌, ◌∷◌, [], IfOk, IsTrue, codes};
ghost use Rattle.redo_vec.specs.declared.columns.Kind.TheVariants as kinds;
ghost use Rattle.redo_vec.specs.Forms.{is_line30};
ghost use Rattle.workload.specs.Accounts.{number_column, accounts, dictionary_vectors, xid_of, natural, opening, paying_in, account_change};

use crate::bodies::two;
use redo_vec::{
    Change, Column, Columns, KeyColumns, KeyLists, Kind, Line30, Op, TableRow, Vector, Vectors,
};
use rl_value::{Cells, NoMemory, Value, Xid};
use std::alloc::Global;

// ---- the table

fn word(alloc: Global, bytes: &[u8]) -> Result<Line30, NoMemory>
    requires form { IsTrue (is_line30 bytes.now) }
    ensures { IfOk result (λ word. word ≡ bytes.now) }
{
    let Ok(bytes) = Vec::from_slice(alloc, bytes) else {
        return Err(NoMemory);
    };
    Ok(Line30::of(bytes))
}

fn number_column(alloc: Global, name: &[u8]) -> Result<Column, NoMemory>
    requires form { IsTrue (is_line30 name.now) }
    ensures value { IfOk result (λ column. column ≡ number_column name.now) }
    ensures kind { IfOk result (λ column. column.kind ≡ kinds.Number) }
{
    Ok(Column {
        name: word(alloc, name)?,
        kind: Kind::Number,
        nullable: false,
    })
}

fn columns(alloc: Global) -> Result<Columns, NoMemory>
    ensures { IfOk result (λ columns. columns ≡ number_column (codes "ID") ∷ number_column (codes "BAL") ∷ []) }
{
    let id = number_column(alloc, b"ID")?;
    let balance = number_column(alloc, b"BAL")?;
    let Ok(items) = Vec::from_array(alloc, [id, balance]) else {
        return Err(NoMemory);
    };
    Ok(Columns::of(items))
}

fn keys(alloc: Global) -> Result<KeyLists, NoMemory>
    ensures { IfOk result (λ keys. keys ≡ (0 ∷ []) ∷ []) }
{
    let Ok(columns) = Vec::from_array(alloc, [0u8]) else {
        return Err(NoMemory);
    };
    let key = KeyColumns::of(columns);
    let Ok(items) = Vec::from_array(alloc, [key]) else {
        return Err(NoMemory);
    };
    Ok(KeyLists::of(items))
}

fn accounts(alloc: Global) -> Result<TableRow, NoMemory>
    ensures { IfOk result (λ table. table ≡ accounts) }
{
    Ok(TableRow {
        id: 1,
        schema: word(alloc, b"LOAD")?,
        name: word(alloc, b"ACC")?,
        columns: columns(alloc)?,
        keys: keys(alloc)?,
    })
}

/// The vectors of the first record.
#[tactic(auto, unfolding(crate::specs::Accounts::dictionary_vectors))]
pub fn dictionary(alloc: Global) -> Result<Vectors, NoMemory>
    ensures { IfOk result (λ vectors. vectors ≡ dictionary_vectors) }
{
    let table = accounts(alloc)?;
    two(alloc, Vector::Table(table), Vector::DictEnd)
}

// ---- changes

/// The id of the transaction of this number.
pub fn xid_of(number: u32) -> Xid
    ensures { result ≡ xid_of number }
{
    Xid {
        usn: 1,
        slot: 1,
        sqn: number,
    }
}

fn natural(number: u64) -> Result<Value, NoMemory>
    ensures { IfOk result (λ value. value ≡ natural number) }
{
    match i64::try_from(number) {
        Ok(number) => Ok(Value::Number(number)),
        Err(_) => Err(NoMemory),
    }
}

fn two_cells(alloc: Global, id: Value, balance: Value) -> Result<Cells, NoMemory>
    ensures { IfOk result (λ cells. cells ≡ (0, id) ∷ (1, balance) ∷ []) }
{
    let Ok(cells) = Vec::from_array(alloc, [(0, id), (1, balance)]) else {
        return Err(NoMemory);
    };
    Ok(Cells::of(cells))
}

fn one_cell(alloc: Global, balance: Value) -> Result<Cells, NoMemory>
    ensures { IfOk result (λ cells. cells ≡ (1, balance) ∷ []) }
{
    let Ok(cells) = Vec::from_array(alloc, [(1, balance)]) else {
        return Err(NoMemory);
    };
    Ok(Cells::of(cells))
}

fn opening(alloc: Global, number: u32, id: u64, amount: u64) -> Result<Change, NoMemory>
    ensures { IfOk result (λ change. change ≡ opening number id amount) }
{
    Ok(Change {
        xid: xid_of(number),
        op: Op::Insert,
        table: 1,
        old: Cells::of(Vec::new(alloc)),
        new: two_cells(alloc, natural(id)?, natural(amount)?)?,
    })
}

fn paying_in(
    alloc: Global,
    number: u32,
    id: u64,
    balance: u64,
    amount: u64,
) -> Result<Change, NoMemory>
    ensures { IfOk result (λ change. change ≡ paying_in number id balance amount) }
{
    let Some(sum) = balance.checked_add(amount) else {
        return Err(NoMemory);
    };
    Ok(Change {
        xid: xid_of(number),
        op: Op::Update,
        table: 1,
        old: two_cells(alloc, natural(id)?, natural(balance)?)?,
        new: one_cell(alloc, natural(sum)?)?,
    })
}

/// An account is opened with an amount, or the amount is added to its balance.
pub fn account_change(
    alloc: Global,
    number: u32,
    id: u64,
    balance: u64,
    amount: u64,
) -> Result<Change, NoMemory>
    ensures { IfOk result (λ change. change ≡ account_change number id balance amount) }
{
    if balance == 0 {
        opening(alloc, number, id, amount)
    } else {
        paying_in(alloc, number, id, balance, amount)
    }
}
