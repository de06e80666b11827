//! How a lock ends.
ghost use Rattle.std.specs.Prelude.{◌≡◌, ℕ, ◌^◌, ◌<◌, ◌≤◌, [], Some, All, length};
ghost use Rattle.seat_lock.specs.Trails.{FitsTrail};
ghost use Rattle.seat_lock.specs.Passes.{AreAllOf, lock_of, at_home, seats_in, seen_by, made_by};
ghost use Rattle.seat_lock.specs.Closing.{HasKept};

use crate::plays::KeepsAccount;
use crate::trailed::Trailed;
use crate::types::{Pass, Passes, SeatLock, View};
use atomic_table::Seat;

impl<V: Trailed> SeatLock<V> {
    /// The value, with all that was made in it. It takes no memory and waits for nobody.
    pub fn close(self, passes: Passes<V::Entry, V::Fixed>) -> V
        requires { AreAllOf V.party (lock_of V.fixed self) passes }
        ensures fixed { Some (V.fixed result) ≡ (lock_of V.fixed self).fixed }
        ensures fits { (n : ℕ) (p : _) → at_home passes n ≡ Some p
            → FitsTrail V.party n (seen_by p) (made_by p) (V.entries result) }
        ensures makers { All (λ e. (1 ≤ V.party e) × (V.party e ≤ seats_in passes)) (V.entries result) }
        ensures short { length (V.entries result) < 2 ^ 32 }
    {
        let seat = self.gather(passes);
        let SeatLock { table } = self;
        let mut closed = table.close_with(seat);
        let slot = closed.take(0);
        closed.free();
        slot.unwrap()
    }

    // The seat of party 1, which keeps an account of every other party.
    fn gather(
        &self,
        passes: Passes<V::Entry, V::Fixed>,
    ) -> Seat<Option<V>, View<V::Entry, V::Fixed>>
        requires { AreAllOf V.party (lock_of V.fixed self.now) passes }
        ensures seat { (result.table_id ≡ (lock_of V.fixed self.now).table) × (result.me.1 ≡ []) }
        ensures kept { HasKept (lock_of V.fixed self.now) passes (lock_of V.fixed self.now).seats result.me.0 }
    {
        let mut passes = passes;
        let Pass { badge, number: _ } = passes.lend(1);
        let mut seat = badge.into_seat();
        let seats = passes.seats();
        for party in 1..seats {
            let Pass { badge, number: _ } = passes.lend(party + 1);
            self.table
                .shared
                .join_seat::<KeepsAccount>(&mut seat, badge.into_seat());
        }
        seat
    }
}
