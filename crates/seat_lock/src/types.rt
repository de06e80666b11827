//! The types of the lock, and the rule of its table.
//! Word 0 is the turn: 0, or the number of the party that has it. Word 1 is the number of entries. The one slot holds the value.
ghost use Rattle.std.specs.Prelude.{◌≡◌, ◌≢◌, ℕ, ◌+◌, ◌<◌, ◌≤◌, ◌^◌, length, [], ◌∷◌, true, false, None, Some, slice_get};
ghost use Rattle.seat_lock.specs.Views.{first_view, lone};
ghost use Rattle.seat_lock.specs.Rule.{Ruled};

use crate::trailed::Trailed;
use atomic_table::{Badge, Seat, Shared, Table, TableRule};
use std::alloc::Global;
use std::collections::LinkedList;
use std::snapshot::Snapshot;

/// What a view keeps of another view that was joined into it. No value of it is made.
pub struct Account<E> {
    pub number: u64,
    pub seen: LinkedList<E>,
    pub mine: LinkedList<E>,
}

/// What a seat at the lock's table knows. No value of it is made.
pub struct View<E, F> {
    /// The party's number, or 0 for a note and for what is left of a view that was joined.
    pub number: u64,
    pub fixed: Option<F>,
    pub seen: LinkedList<E>,
    pub mine: LinkedList<E>,
    /// What the lost tries for the turn read, in order.
    pub lost: LinkedList<u64>,
    pub has_turn: bool,
    pub kept: LinkedList<Account<E>>,
    /// How many parties were made, where this is party 1.
    pub made: u64,
}

/// What the table is told when it is made: the first value, and the number of seats.
#[derive(Drop)]
pub struct About<V> {
    pub first: Snapshot<V>,
    pub seats: u32,
}

/// The rule of the lock.
pub struct LockRule;

impl<V: Trailed> TableRule<Option<V>, View<V::Entry, V::Fixed>, About<V>> for LockRule {
    ghost holds = { λ about. Ruled V.party V.entries V.fixed about };

    ghost first = { λ about. first_view (V.fixed about.first.value) };
}

/// A value behind a lock, of which one party at a time has the turn.
#[derive(Drop)]
pub struct SeatLock<V: Trailed> {
    pub(crate) table: Table<Option<V>, View<V::Entry, V::Fixed>, About<V>, LockRule, Global>,
    ghost sized: { (table.shared.table_id.words ≡ 2) × (table.shared.table_id.slots ≡ 1) },
    ghost seated: { 1 ≤ table.shared.key.seats },
}

/// What one party carries from turn to turn: what it has seen of the trail, what it made, and which tries it lost.
/// A pass that is dropped ends no turn, but the lock can then neither meet nor close.
#[derive(Drop)]
pub struct Pass<E, F> {
    pub(crate) badge: Badge<View<E, F>>,
    pub(crate) number: u32,
    ghost one: { badge.views ≡ lone badge.views ∷ [] },
    ghost numbered: { ((lone badge.views).number ≡ number) × (number ≢ 0) },
    ghost resting: { ((lone badge.views).has_turn ≡ false) × ((lone badge.views).kept ≡ []) },
}

/// A turn that was not got: the word that was read, which is the number of the party that had the turn then.
#[derive(Drop)]
pub struct Held<E, F> {
    pub word: u64,
    pub pass: Pass<E, F>,
}

/// A turn: the value, until `leave`. It is not `Drop`, so a turn that is taken is ended.
pub struct Turn<'a, V: Trailed> {
    pub(crate) shared: &'a Shared<Option<V>, View<V::Entry, V::Fixed>, About<V>, LockRule>,
    pub(crate) seat: Seat<Option<V>, View<V::Entry, V::Fixed>>,
    pub(crate) number: u32,
    pub(crate) value: V,
    ghost sized: { (shared.now.table_id.words ≡ 2) × (shared.now.table_id.slots ≡ 1) × (seat.table_id ≡ shared.now.table_id) },
    ghost out: { seat.me.1 ≡ (0, None) ∷ [] },
    ghost numbered: { (seat.me.0.number ≡ number) × (number ≢ 0) },
    ghost holds: { seat.me.0.has_turn ≡ true },
    ghost counts: { number ≡ 1 → seat.me.0.made ≡ shared.now.key.seats },
}

/// The passes of one lock, each at its place or handed out.
#[derive(Drop)]
pub struct Passes<E, F> {
    pub(crate) places: Vec<Option<Pass<E, F>>>,
    ghost few: { length places.items < 2 ^ 32 },
    ghost placed: { (k : ℕ) (p : _) → slice_get places.items k ≡ Some (Some p) → p.number ≡ k + 1 },
}
