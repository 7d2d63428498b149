//! A tag and a start count, read off a value for the contracts alone.
//!
//! A table is told once, when it is made, which tag its views have, and what it is told has to be a value.
//! An `Origin` is that value: it has no bytes, and only clauses tie what it says to the value that it was read off.
ghost use Rattle.std.specs.Prelude.{◌≡◌, ℕ, Option, None, Some};
ghost use Rattle.std.specs.Coded.{coded_option};
ghost use base.Fml.{ftrue};

use crate::meaning::{Names, Tagged};
use std::marker::{Model, PhantomData};

/// How a tag and a start count are read off a value.
pub trait Reads<X, T> {
    ghost tag: { X → Option T };

    ghost start: { X → ℕ };
}

/// A tag and a start count that only clauses read. It has no bytes and owns nothing.
pub struct Origin<T> {
    marker: PhantomData<T>,
    pub ghost tag: { Option T } by { coded_option T.code },
    pub ghost start: { ℕ },
}

impl<T> Model for Origin<T> {
    ghost also_owns = { λ _. ftrue };
}

impl<T> Origin<T> {
    pub fn of<X, M: Reads<X, T>>(x: &X) -> Origin<T>
        ensures { (result.tag ≡ M.tag x.now) × (result.start ≡ M.start x.now) }
    {
        let _ = x;
        Origin {
            marker: PhantomData,
        }
    }
}

impl<T> Drop for Origin<T> {
    fn drop(self) {
        let Self { marker: _ } = self;
    }
}

/// The tag that a value names, with its count of faults.
pub struct Named;

impl<V: Names> Reads<V, V::Tag> for Named {
    ghost tag = { λ v. Some (V.names v) };

    ghost start = { λ v. V.faults v };
}

/// The count of faults of a value that names no tag.
pub struct Started;

impl<V: Tagged> Reads<V, V::Tag> for Started {
    ghost tag = { λ _. None };

    ghost start = { λ v. V.faults v };
}
