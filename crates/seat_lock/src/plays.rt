//! What each step on the table tells, and how views are cut and joined.
ghost use Rattle.std.specs.Prelude.{[]};
ghost use Rattle.seat_lock.specs.Views.{note};
ghost use Rattle.seat_lock.specs.Plays.{tried, counted, released, learned, with_party_made, next_party, keeping};

use crate::trailed::Trailed;
use crate::types::View;
use atomic_table::{Join, Play, Split};

/// A try for the turn.
pub(crate) struct Try;

impl<V: Trailed> Play<Option<V>, View<V::Entry, V::Fixed>> for Try {
    ghost then = { tried V.party V.entries V.fixed };
}

/// The count of the value's entries.
pub(crate) struct Count;

impl<V: Trailed> Play<Option<V>, View<V::Entry, V::Fixed>> for Count {
    ghost then = { counted V.party V.entries V.fixed };
}

/// The end of a turn.
pub(crate) struct Release;

impl<V: Trailed> Play<Option<V>, View<V::Entry, V::Fixed>> for Release {
    ghost then = { released V.party V.entries V.fixed };
}

/// A look at the table, by which a view learns what it was told.
pub(crate) struct Learn;

impl<V: Trailed> Play<Option<V>, View<V::Entry, V::Fixed>> for Learn {
    ghost then = { learned V.party V.entries V.fixed };
}

/// Party 1 makes the next party.
pub(crate) struct NextParty;

impl<E, F> Split<View<E, F>> for NextParty {
    ghost left = { with_party_made };

    ghost right = { next_party };
}

/// A note of what a view has seen.
pub(crate) struct Note;

impl<E, F> Split<View<E, F>> for Note {
    ghost left = { λ v. v };

    ghost right = { λ v. note v.seen };
}

/// The first keeps an account of the second.
pub(crate) struct KeepsAccount;

impl<E, F> Join<View<E, F>> for KeepsAccount {
    ghost both = { keeping };

    ghost spent = { note [] };
}
