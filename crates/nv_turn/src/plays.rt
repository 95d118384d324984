// What each step on the table tells, and how views are cut and joined.
ghost use Rattle.nv_turn.specs.inside.Steps.{TakesTurn, LooksAtStory, MergesNotes, AddsEntry, GivesBack, DrawsNumber, undue_view, newcomer_view, joined_view, spent_view};

use crate::story::Story;
use crate::view::View;
use atomic_table::{Join, Play, Split};
use std::marker::PhantomData;

/// Word 0 from 0 to 1, and the slot out.
pub struct Take<T> {
    of: PhantomData<T>,
}

impl<T: Story> Play<Option<T>, View<T::Entry, T::Start>> for Take<T> {
    ghost then = { TakesTurn T.caller T.stands T.start };
}

/// A load of word 1.
pub struct Look<T> {
    of: PhantomData<T>,
}

impl<T: Story> Play<Option<T>, View<T::Entry, T::Start>> for Look<T> {
    ghost then = { LooksAtStory T.caller T.stands T.start };
}

/// A load of word 0, after a join.
pub struct Merge<T> {
    of: PhantomData<T>,
}

impl<T: Story> Play<Option<T>, View<T::Entry, T::Start>> for Merge<T> {
    ghost then = { MergesNotes T.caller T.stands T.start };
}

/// Word 1 plus 1, with the value in hand.
pub struct Publish<T> {
    of: PhantomData<T>,
}

impl<T: Story> Play<Option<T>, View<T::Entry, T::Start>> for Publish<T> {
    ghost then = { AddsEntry T.caller T.stands T.start };
}

/// Word 0 to 0, and the slot in.
pub struct Give;

impl<T, E, D> Play<Option<T>, View<E, D>> for Give {
    ghost then = { GivesBack };
}

/// Word 2 plus 1.
pub struct Draw;

impl<T, E, D> Play<Option<T>, View<E, D>> for Draw {
    ghost then = { DrawsNumber };
}

/// One more pass, which takes over the right to draw.
pub struct Another;

impl<E, D> Split<View<E, D>> for Another {
    ghost left = { undue_view };

    ghost right = { newcomer_view };
}

/// Two passes into one.
pub struct Both;

impl<E, D> Join<View<E, D>> for Both {
    ghost both = { joined_view };

    ghost spent = { spent_view };
}
