//! The table's rule, and what each step tells.
ghost use Rattle.bookmark_lock.specs.Rule.{Kept, first_view, taken, counted, passed, freed, drew, settled, fork_left, fork_right, merge_both, spent_view};

use crate::Recorded;
use crate::view::View;
use atomic_table::{Join, Play, Split, TableRule};
use std::marker::PhantomData;
use std::snapshot::Snapshot;

pub struct Turns<T> {
    value: PhantomData<T>,
}

impl<T: Recorded> TableRule<Option<T>, View, Snapshot<T>> for Turns<T> {
    ghost holds = { λ key. Kept T.history T.opening T.sealed T.reach T.disk T.most key.value };

    ghost first = { λ key. first_view T.history T.opening T.sealed T.reach T.disk key.value };
}

pub struct Take<T> {
    value: PhantomData<T>,
}

impl<T: Recorded> Play<Option<T>, View> for Take<T> {
    ghost then = { taken T.history T.opening T.sealed T.reach T.disk };
}

pub struct Count<T> {
    value: PhantomData<T>,
}

impl<T: Recorded> Play<Option<T>, View> for Count<T> {
    ghost then = { counted T.history T.opening T.sealed T.reach T.disk };
}

pub struct Pass;

impl<T> Play<Option<T>, View> for Pass {
    ghost then = { passed };
}

pub struct Free;

impl<T> Play<Option<T>, View> for Free {
    ghost then = { freed };
}

pub struct Draw;

impl<T> Play<Option<T>, View> for Draw {
    ghost then = { drew };
}

pub struct Settle;

impl<T> Play<Option<T>, View> for Settle {
    ghost then = { settled };
}

pub struct Fork;

impl Split<View> for Fork {
    ghost left = { fork_left };

    ghost right = { fork_right };
}

pub struct Merge;

impl Join<View> for Merge {
    ghost both = { merge_both };

    ghost spent = { spent_view };
}
