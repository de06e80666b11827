//! `Turn::value` has a file of its own: its clause names the row of `Turn`, which the file that declares `Turn` cannot import.
ghost use Rattle.std.specs.Prelude.{◌≡◌};
ghost use Rattle.std.specs.Borrow.{sem};
ghost use Rattle.seat_lock.specs.Passes.{value_in};
ghost use Rattle.seat_lock.specs.Lending.{LendsValue};

use crate::trailed::Trailed;
use crate::types::Turn;

impl<V: Trailed> Turn<'_, V> {
    /// The value of the turn. When the borrow ends, the turn has what was written through it.
    pub fn value(&mut self) -> &mut V
        ensures* writes_back { sem 𝓛 (LendsValue V.row V.Entry.row V.Fixed.row V.Trailed self.entry result) }
        ensures value { result.now ≡ value_in self.old }
    {
        &mut self.value
    }
}
