//! Turns: how a party takes one, and how it ends it.
ghost use Rattle.std.specs.Prelude.{◌≡◌, ◌≢◌, ◌+◌, ◌^◌, ◌<◌, length, [], ◌∷◌, ◌++◌, IfOk, IfErr, MatchResult};
ghost use Rattle.seat_lock.specs.Trails.{FitsTrail, BeginsWith};
ghost use Rattle.seat_lock.specs.Passes.{IsPassOf, AddsAtMostOne, MadeInTurn, lock_of, party_of, seen_by, made_by, lost_by, lock_in, party_in, value_in, seen_in, made_in, lost_in};

use crate::plays::{Count, Release, Try};
use crate::trailed::Trailed;
use crate::types::{Held, Pass, SeatLock, Turn};
use crossbeam_utils::Backoff;
use std::sync::Wait;

impl<E, F> Pass<E, F> {
    /// The number of the pass's party, from 1.
    pub fn party(&self) -> u32
        ensures { result ≡ party_of self.now }
    {
        self.number
    }
}

impl<V: Trailed> SeatLock<V> {
    /// One try for the turn. It is lost where another party has the turn: then the pass comes back with the word that was read.
    pub fn try_enter(
        &self,
        pass: Pass<V::Entry, V::Fixed>,
    ) -> Result<Turn<'_, V>, Held<V::Entry, V::Fixed>>
        requires { IsPassOf V.party (lock_of V.fixed self.now) pass }
        ensures turn { IfOk result
            (λ t. (lock_in t ≡ lock_of V.fixed self.entry.now) × (party_in t ≡ party_of pass)
            × (made_in t ≡ made_by pass) × (lost_in t ≡ lost_by pass)) }
        ensures trail { IfOk result (λ t. (V.entries (value_in t) ≡ seen_in t) × (length (seen_in t) < 2 ^ 32)) }
        ensures fits { IfOk result
            (λ t. FitsTrail V.party (party_of pass) (seen_by pass) (made_by pass) (V.entries (value_in t))) }
        ensures fixed { IfOk result (λ t. Some (V.fixed (value_in t)) ≡ (lock_of V.fixed self.entry.now).fixed) }
        ensures word { IfErr result (λ h. (h.word ≢ 0) × (h.word ≢ party_of pass)) }
        ensures lost { IfErr result (λ h. lost_by h.pass ≡ lost_by pass ++ h.word ∷ []) }
        ensures pass { IfErr result
            (λ h. IsPassOf V.party (lock_of V.fixed self.entry.now) h.pass × (party_of h.pass ≡ party_of pass)
            × (seen_by h.pass ≡ seen_by pass) × (made_by h.pass ≡ made_by pass)) }
    {
        let Pass { badge, number } = pass;
        let mut seat = badge.into_seat();
        let shared = &self.table.shared;
        let word = shared.compare_exchange::<Try>(&mut seat, 0, 0, u64::from(number));
        if word != 0 {
            let pass = Pass {
                badge: seat.into_badge(),
                number,
            };
            return Err(Held { word, pass });
        }
        let value = shared.exchange(&mut seat, 0, None).unwrap();
        Ok(Turn {
            shared,
            seat,
            number,
            value,
        })
    }

    /// Tries until it has the turn.
    pub fn enter<R: Wait>(&self, rt: &R, pass: Pass<V::Entry, V::Fixed>) -> Turn<'_, V>
        requires { IsPassOf V.party (lock_of V.fixed self.now) pass }
        ensures turn { (lock_in result ≡ lock_of V.fixed self.entry.now) × (party_in result ≡ party_of pass)
            × (made_in result ≡ made_by pass) }
        ensures lost { BeginsWith (lost_in result) (lost_by pass) }
        ensures trail { (V.entries (value_in result) ≡ seen_in result) × (length (seen_in result) < 2 ^ 32) }
        ensures fits { FitsTrail V.party (party_of pass) (seen_by pass) (made_by pass) (V.entries (value_in result)) }
        ensures fixed { Some (V.fixed (value_in result)) ≡ (lock_of V.fixed self.entry.now).fixed }
    {
        let backoff = Backoff::new();
        let mut pass = pass;
        for _ in rt.forever() {
            match self.try_enter(pass) {
                Ok(turn) => return turn,
                Err(held) => {
                    let Held {
                        word: _,
                        pass: back,
                    } = held;
                    pass = back;
                }
            }
            backoff.snooze();
        }
        unreachable!()
    }
}

impl<V: Trailed> Turn<'_, V> {
    /// Ends the turn: the value goes back behind the lock.
    pub fn leave(self) -> Pass<V::Entry, V::Fixed>
        requires fixed { Some (V.fixed (value_in self)) ≡ (lock_in self).fixed }
        requires trail { AddsAtMostOne V.party (party_in self) (seen_in self) (V.entries (value_in self)) }
        requires short { length (V.entries (value_in self)) < 2 ^ 32 }
        ensures pass { IsPassOf V.party (lock_in self.entry) result }
        ensures party { party_of result ≡ party_in self.entry }
        ensures seen { seen_by result ≡ V.entries (value_in self.entry) }
        ensures made { MadeInTurn (seen_in self.entry) (V.entries (value_in self.entry)) (made_in self.entry)
            (made_by result) }
        ensures lost { lost_by result ≡ lost_in self.entry }
    {
        let Turn {
            shared,
            mut seat,
            number,
            value,
        } = self;
        let count = value.length();
        let emptied = shared.exchange(&mut seat, 0, Some(value));
        let None = emptied else {
            unreachable!();
        };
        shared.store::<Count>(&mut seat, 1, u64::from(count));
        shared.store::<Release>(&mut seat, 0, 0);
        Pass {
            badge: seat.into_badge(),
            number,
        }
    }
}
