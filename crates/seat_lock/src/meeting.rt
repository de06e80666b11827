//! How passes meet: each learns what the others have seen.
ghost use Rattle.std.specs.Prelude.{◌≡◌, ◌≢◌, ℕ, ◌≤◌, [], Some, false};
ghost use Rattle.seat_lock.specs.Trails.{BeginsWith, longer};
ghost use Rattle.seat_lock.specs.Views.{note};
ghost use Rattle.seat_lock.specs.Plays.{with_seen};
ghost use Rattle.seat_lock.specs.Passes.{AreAllOf, HaveMet, IsTrailOf, lock_of, at_home, seats_in, seen_by, made_by, lost_by};
ghost use Rattle.seat_lock.specs.Meeting.{HasLearned, view_at, seen_at};

use crate::plays::{KeepsAccount, Learn, Note};
use crate::trailed::Trailed;
use crate::types::{Pass, Passes, SeatLock, View};
use atomic_table::Seat;
use std::sync::Wait;

impl<V: Trailed> SeatLock<V> {
    /// All passes meet, which are at home: then all have seen the same trail. Party 1 takes a turn for it, in which it makes nothing.
    /// It takes no memory.
    pub fn meet<R: Wait>(&self, rt: &R, passes: &mut Passes<V::Entry, V::Fixed>)
        requires { AreAllOf V.party (lock_of V.fixed self.now) passes.old }
        ensures all { AreAllOf V.party (lock_of V.fixed self.entry.now) passes.new }
        ensures met { HaveMet passes.new }
        ensures trail { (n : ℕ) (p : _) → at_home passes.new n ≡ Some p
            → IsTrailOf V.entries V.fixed (lock_of V.fixed self.entry.now) (seen_by p) }
        ensures seen { (n : ℕ) (p q : _) → at_home passes.old n ≡ Some p → at_home passes.new n ≡ Some q
            → BeginsWith (seen_by q) (seen_by p) }
        ensures made { (n : ℕ) (p q : _) → at_home passes.old n ≡ Some p → at_home passes.new n ≡ Some q
            → made_by q ≡ made_by p }
        ensures lost { (n : ℕ) (p q : _) → at_home passes.old n ≡ Some p → at_home passes.new n ≡ Some q
            → BeginsWith (lost_by q) (lost_by p) }
    {
        self.tell_first(passes);
        self.take_turn(rt, passes);
        self.tell_others(passes);
    }

    // Party 1 learns what every other party has seen.
    fn tell_first(&self, passes: &mut Passes<V::Entry, V::Fixed>)
        requires { AreAllOf V.party (lock_of V.fixed self.now) passes.old }
        ensures all { AreAllOf V.party (lock_of V.fixed self.entry.now) passes.new }
        ensures each { (n : ℕ) → HasLearned (view_at passes.old n) (view_at passes.new n) }
        ensures seen { (n : ℕ) → 1 ≤ n → n ≤ seats_in passes.new
            → BeginsWith (seen_at passes.new 1) (seen_at passes.new n) }
    {
        for party in 1..passes.seats() {
            self.tell(passes, party + 1, 1);
        }
    }

    // Party 1 takes a turn, and makes nothing in it.
    fn take_turn<R: Wait>(&self, rt: &R, passes: &mut Passes<V::Entry, V::Fixed>)
        requires { AreAllOf V.party (lock_of V.fixed self.now) passes.old }
        ensures all { AreAllOf V.party (lock_of V.fixed self.entry.now) passes.new }
        ensures first { HasLearned (view_at passes.old 1) (view_at passes.new 1) }
        ensures trail { IsTrailOf V.entries V.fixed (lock_of V.fixed self.entry.now) (seen_at passes.new 1) }
        ensures others { (n : ℕ) → n ≢ 1 → view_at passes.new n ≡ view_at passes.old n }
    {
        let turn = self.enter(rt, passes.lend(1));
        passes.give(turn.leave());
    }

    // Every other party learns what party 1 has seen, which is no less than what it has seen itself.
    fn tell_others(&self, passes: &mut Passes<V::Entry, V::Fixed>)
        requires all { AreAllOf V.party (lock_of V.fixed self.now) passes.old }
        requires seen { (n : ℕ) → 1 ≤ n → n ≤ seats_in passes.old
            → BeginsWith (seen_at passes.old 1) (seen_at passes.old n) }
        ensures all { AreAllOf V.party (lock_of V.fixed self.entry.now) passes.new }
        ensures each { (n : ℕ) → HasLearned (view_at passes.old n) (view_at passes.new n) }
        ensures met { (n : ℕ) → 1 ≤ n → n ≤ seats_in passes.new → seen_at passes.new n ≡ seen_at passes.old 1 }
    {
        for party in 1..passes.seats() {
            self.tell(passes, 1, party + 1);
        }
    }

    // The pass of one party learns what that of another has seen, by a note of it.
    fn tell(&self, passes: &mut Passes<V::Entry, V::Fixed>, from: u32, to: u32)
        requires all { AreAllOf V.party (lock_of V.fixed self.now) passes.old }
        requires from { (1 ≤ from) × (from ≤ seats_in passes.old) }
        requires to { (1 ≤ to) × (to ≤ seats_in passes.old) }
        ensures all { AreAllOf V.party (lock_of V.fixed self.entry.now) passes.new }
        ensures others { (n : ℕ) → n ≢ to → view_at passes.new n ≡ view_at passes.old n }
        ensures learned { view_at passes.new to
            ≡ with_seen (longer (seen_at passes.old to) (seen_at passes.old from)) (view_at passes.old to) }
        ensures own { BeginsWith (seen_at passes.new to) (seen_at passes.old to) }
        ensures told { BeginsWith (seen_at passes.new to) (seen_at passes.old from) }
    {
        let note = self.note_of(passes, from);
        self.learn(passes, to, note);
    }

    // A note of what the pass of a party has seen.
    fn note_of(
        &self,
        passes: &mut Passes<V::Entry, V::Fixed>,
        party: u32,
    ) -> Seat<Option<V>, View<V::Entry, V::Fixed>>
        requires all { AreAllOf V.party (lock_of V.fixed self.now) passes.old }
        requires party { (1 ≤ party) × (party ≤ seats_in passes.old) }
        ensures all { AreAllOf V.party (lock_of V.fixed self.entry.now) passes.new }
        ensures same { (n : ℕ) → view_at passes.new n ≡ view_at passes.old n }
        ensures table { result.table_id ≡ (lock_of V.fixed self.entry.now).table }
        ensures note { result.me ≡ (note (seen_at passes.old party), []) }
    {
        let Pass { badge, number } = passes.lend(party);
        let mut seat = badge.into_seat();
        let note = self.table.shared.split_seat::<Note>(&mut seat);
        passes.give(Pass {
            badge: seat.into_badge(),
            number,
        });
        note
    }

    // The pass of a party learns what another view has seen, which has no turn and is spent.
    fn learn(
        &self,
        passes: &mut Passes<V::Entry, V::Fixed>,
        party: u32,
        other: Seat<Option<V>, View<V::Entry, V::Fixed>>,
    )
        requires all { AreAllOf V.party (lock_of V.fixed self.now) passes.old }
        requires party { (1 ≤ party) × (party ≤ seats_in passes.old) }
        requires table { other.table_id ≡ (lock_of V.fixed self.now).table }
        requires rests { (other.me.1 ≡ []) × (other.me.0.has_turn ≡ false) }
        ensures all { AreAllOf V.party (lock_of V.fixed self.entry.now) passes.new }
        ensures others { (n : ℕ) → n ≢ party → view_at passes.new n ≡ view_at passes.old n }
        ensures learned { view_at passes.new party
            ≡ with_seen (longer (seen_at passes.old party) other.me.0.seen) (view_at passes.old party) }
        ensures own { BeginsWith (seen_at passes.new party) (seen_at passes.old party) }
        ensures told { BeginsWith (seen_at passes.new party) other.me.0.seen }
    {
        let Pass { badge, number } = passes.lend(party);
        let mut seat = badge.into_seat();
        let shared = &self.table.shared;
        shared.join_seat::<KeepsAccount>(&mut seat, other);
        shared.load::<Learn>(&mut seat, 0);
        passes.give(Pass {
            badge: seat.into_badge(),
            number,
        });
    }
}
