//! How a lock and its passes are made.
ghost use Rattle.std.specs.Prelude.{◌≡◌, ℕ, ◌+◌, ◌-◌, ◌^◌, ◌<◌, ◌≤◌, [], Some, IfOk, vec_capacity};
ghost use Rattle.seat_lock.specs.Views.{first_view};
ghost use Rattle.seat_lock.specs.Passes.{AreAllOf, AreAllNew, IsNewPass, lock_of, seen_by, made_by, lost_by, at_home};

use crate::plays::NextParty;
use crate::trailed::Trailed;
use crate::types::{About, Pass, Passes, SeatLock};
use atomic_table::Table;
use std::alloc::{AllocError, Global};
use std::snapshot::Snapshot;

impl<V: Trailed + Drop> SeatLock<V> {
    /// The lock, and a pass for each of the parties 1 to `seats`. It is the only call that takes memory.
    pub fn new(
        alloc: Global,
        value: V,
        seats: u32,
    ) -> Result<(SeatLock<V>, Passes<V::Entry, V::Fixed>), AllocError>
        requires seats { (1 ≤ seats) × (seats ≤ 32) }
        requires empty { V.entries value ≡ [] }
        ensures lock { IfOk result
            (λ r. ((lock_of V.fixed r.0).fixed ≡ Some (V.fixed value)) × ((lock_of V.fixed r.0).seats ≡ seats)) }
        ensures all { IfOk result (λ r. AreAllOf V.party (lock_of V.fixed r.0) r.1) }
        ensures new { IfOk result
            (λ r. (n : ℕ) (p : _) → at_home r.1 n ≡ Some p → (seen_by p ≡ []) × (made_by p ≡ []) × (lost_by p ≡ [])) }
    {
        let (lock, first) = SeatLock::open(alloc, value, seats)?;
        let places = Vec::with_capacity(alloc, seats as usize)?;
        let passes = lock.deal(first, places, seats);
        Ok((lock, passes))
    }

    // The lock, and the pass of party 1.
    fn open(
        alloc: Global,
        value: V,
        seats: u32,
    ) -> Result<(SeatLock<V>, Pass<V::Entry, V::Fixed>), AllocError>
        requires seats { 1 ≤ seats }
        requires empty { V.entries value ≡ [] }
        ensures lock { IfOk result
            (λ r. ((lock_of V.fixed r.0).fixed ≡ Some (V.fixed value)) × ((lock_of V.fixed r.0).seats ≡ seats)) }
        ensures pass { IfOk result (λ r. IsNewPass (lock_of V.fixed r.0) 1 1 r.1) }
    {
        let about = About {
            first: Snapshot::of(&value),
            seats,
        };
        let mut slots = Vec::with_capacity(alloc, 1)?;
        slots.push_reserved(Some(value));
        match Table::new(alloc, &[0, 0], slots, &about) {
            Ok((table, seat)) => {
                let pass = Pass {
                    badge: seat.into_badge(),
                    number: 1,
                };
                Ok((SeatLock { table }, pass))
            }
            Err(_refused) => Err(AllocError),
        }
    }
}

impl<V: Trailed> SeatLock<V> {
    // Party 1 makes the pass of the party `number`.
    fn next_pass(
        &self,
        first: Pass<V::Entry, V::Fixed>,
        number: u32,
    ) -> (Pass<V::Entry, V::Fixed>, Pass<V::Entry, V::Fixed>)
        requires seats { (2 ≤ number) × (number ≤ (lock_of V.fixed self.now).seats) }
        requires first { IsNewPass (lock_of V.fixed self.now) (number - 1) 1 first }
        ensures first { IsNewPass (lock_of V.fixed self.entry.now) number 1 result.0 }
        ensures next { IsNewPass (lock_of V.fixed self.entry.now)
            (lock_of V.fixed self.entry.now).seats number result.1 }
    {
        let Pass { badge, number: one } = first;
        let mut seat = badge.into_seat();
        let next = self.table.shared.split_seat::<NextParty>(&mut seat);
        let first = Pass {
            badge: seat.into_badge(),
            number: one,
        };
        let next = Pass {
            badge: next.into_badge(),
            number,
        };
        (first, next)
    }

    // All passes, each at its place.
    fn deal(
        &self,
        first: Pass<V::Entry, V::Fixed>,
        places: Vec<Option<Pass<V::Entry, V::Fixed>>>,
        seats: u32,
    ) -> Passes<V::Entry, V::Fixed>
        requires seats { (1 ≤ seats) × (seats ≡ (lock_of V.fixed self.now).seats) }
        requires room { (places.items ≡ []) × (vec_capacity places ≡ seats) }
        requires first { IsNewPass (lock_of V.fixed self.now) 1 1 first }
        ensures all { AreAllNew (lock_of V.fixed self.entry.now) result }
    {
        let mut first = first;
        let mut places = places;
        places.push_reserved(None);
        for made in 1..seats {
            let (back, next) = self.next_pass(first, made + 1);
            first = back;
            places.push_reserved(Some(next));
        }
        places[0] = Some(first);
        Passes { places }
    }
}
