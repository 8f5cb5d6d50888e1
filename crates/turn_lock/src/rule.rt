// The rule of the table under a lock, and the kinds of step.
use crate::chronicle::Chronicle;
use atomic_table::{Join, Play, Split, TableRule};
use std::collections::LinkedList;
use std::marker::PhantomData;
use std::snapshot::Snapshot;

// What a handle knows. No value of it is made.
pub struct View<E> {
    pub seen: LinkedList<E>,
    // What a handle that was joined had seen, until the next look.
    pub reported: LinkedList<E>,
    pub own: LinkedList<(u64, E)>,
    pub parts: u64,
    pub number: u64,
    pub turn: bool,
    pub found: LinkedList<u64>,
    // That of the state.
    pub origin: LinkedList<u64>,
}

pub struct InTurns<S> {
    state: PhantomData<S>,
}

impl<S: Chronicle> TableRule<Option<S>, View<S::Entry>, Snapshot<S>> for InTurns<S> {
    ghost use Rattle.turn_lock.specs.Rule.{Holds, first_view};

    ghost holds = { λ key. Holds S.entries S.mark_of S.origin (S.origin key.value) };

    ghost first = { λ key. first_view (S.origin key.value) (S.entries key.value) };
}

pub struct Cut;

impl<E> Split<View<E>> for Cut {
    ghost use Rattle.turn_lock.specs.Rule.{parted, newcomer};

    ghost left = { parted };

    ghost right = { newcomer };
}

pub struct Glue;

impl<E> Join<View<E>> for Glue {
    ghost use Rattle.turn_lock.specs.Rule.{joined, spent};

    ghost both = { joined };

    ghost spent = { spent };
}

pub struct Number;

impl<S: Chronicle> Play<Option<S>, View<S::Entry>> for Number {
    ghost use Rattle.turn_lock.specs.Rule.{numbered};

    ghost then = { numbered };
}

pub struct Look;

impl<S: Chronicle> Play<Option<S>, View<S::Entry>> for Look {
    ghost use Rattle.turn_lock.specs.Rule.{looked};

    ghost then = { looked S.mark_of };
}

pub struct Claim;

impl<S: Chronicle> Play<Option<S>, View<S::Entry>> for Claim {
    ghost use Rattle.turn_lock.specs.Rule.{claimed};

    ghost then = { claimed S.entries S.origin };
}

pub struct Publish;

impl<S: Chronicle> Play<Option<S>, View<S::Entry>> for Publish {
    ghost use Rattle.turn_lock.specs.Rule.{published};

    ghost then = { published S.entries };
}

pub struct Release;

impl<S: Chronicle> Play<Option<S>, View<S::Entry>> for Release {
    ghost use Rattle.turn_lock.specs.Rule.{released};

    ghost then = { released };
}
