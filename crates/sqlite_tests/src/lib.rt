//! Tests of `sqlite_keeper`: what is put is found again, and a file that can't be used is refused and harms nothing.
//!
//! They stand apart, since a crate with tests in it is proved twice, and alone, since each crate over SQLite costs minutes.
#![tactic(auto)]

#[cfg(test)]
mod real_file;
