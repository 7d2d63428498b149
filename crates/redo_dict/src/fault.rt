//! Why the dictionary refuses a table or a change. The variants stand in the order of their tests.

/// Why a table is not taken.
#[derive(Clone, Copy, Debug, PartialEq, Eq)]
pub enum DictFault {
    /// A table of its id, or of its schema and name, is there.
    Twice,
    /// A name is not of the form of `Name`, or a column's name stands twice.
    Names,
    /// A key column is none of the table's, a primary key column may be Null, or two keys have the same columns.
    Keys,
    /// It is the 257th table, or its widest row is over 1,024 bytes or its widest key over 128.
    Limit,
    /// Want of memory.
    Memory,
}

/// Why a change is not accepted.
#[derive(Clone, Copy, Debug, PartialEq, Eq)]
pub enum ChangeFault {
    /// Its table is not in the dictionary.
    NoTable,
    /// A cell is of no column, or the cells are not those that the kind of change wants.
    Columns,
    /// A value does not fit its column.
    Types,
    /// The old cells of an UPDATE are not exactly those of the primary key, of what is set, and of each unique key of
    /// which a column is set.
    Supplement,
}
