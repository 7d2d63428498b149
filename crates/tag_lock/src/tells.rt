//! What a step tells its seat, and how split and join make views. The relations stand in specs/Rule.antt.
use crate::meaning::Tagged;
use crate::rule::Known;
use atomic_table::{Join, Play, Split};
use std::marker::PhantomData;

/// What the load tells.
pub struct Looked;

impl<S, T> Play<S, Known<T>> for Looked {
    ghost use Rattle.tag_lock.specs.Rule.{looked};

    ghost then = { looked };
}

/// What the claiming compare and exchange tells.
pub struct Claimed<V> {
    value: PhantomData<V>,
}

impl<V: Tagged> Play<Option<V>, Known<V::Tag>> for Claimed<V> {
    ghost use Rattle.tag_lock.specs.Rule.{claimed};

    ghost then = { claimed V.stands V.height };
}

/// What the opening store tells.
pub struct Released;

impl<S, T> Play<S, Known<T>> for Released {
    ghost use Rattle.tag_lock.specs.Rule.{released};

    ghost then = { released };
}

/// How split cuts a view.
pub struct CutView;

impl<T> Split<Known<T>> for CutView {
    ghost use Rattle.tag_lock.specs.Rule.{cut_left, cut_right};

    ghost left = { cut_left };

    ghost right = { cut_right };
}

/// How join makes one view of two.
pub struct JoinedViews;

impl<T> Join<Known<T>> for JoinedViews {
    ghost use Rattle.tag_lock.specs.Rule.{joined, spent_view};

    ghost both = { joined };

    ghost spent = { spent_view };
}
