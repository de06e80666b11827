//! Handing out passes, and taking them back.
ghost use Rattle.std.specs.Prelude.{◌≡◌, ◌≢◌, ℕ, ◌≤◌, Some, None, IsSome};
ghost use Rattle.seat_lock.specs.Passes.{party_of, seats_in, at_home};

use crate::types::{Pass, Passes};
use std::alloc::Global;
use std::mem;

impl<E, F> Passes<E, F> {
    /// The number of parties.
    pub fn seats(&self) -> u32
        ensures { result ≡ seats_in self.now }
    {
        self.places.len() as u32
    }

    /// Hands all passes over, those at home and the places of the others, and leaves no place behind. It takes no memory.
    pub fn take_all(&mut self, alloc: Global) -> Passes<E, F>
        ensures passes { result ≡ self.old }
        ensures left { seats_in self.new ≡ 0 }
    {
        let none = Passes {
            places: Vec::new(alloc),
        };
        mem::replace(self, none)
    }

    /// Hands out the pass of a party, which is at home.
    pub fn lend(&mut self, party: u32) -> Pass<E, F>
        requires { IsSome (at_home self.old party) }
        ensures pass { at_home self.old party ≡ Some result }
        ensures party { party_of result ≡ party }
        ensures empty { at_home self.new party ≡ None }
        ensures others { (n : ℕ) → n ≢ party → at_home self.new n ≡ at_home self.old n }
        ensures seats { seats_in self.new ≡ seats_in self.old }
    {
        let place = party as usize - 1;
        mem::replace(&mut self.places[place], None).unwrap()
    }

    /// Takes a pass back to its place, which is empty.
    pub fn give(&mut self, pass: Pass<E, F>)
        requires seat { party_of pass ≤ seats_in self.old }
        requires empty { at_home self.old (party_of pass) ≡ None }
        ensures pass { at_home self.new (party_of pass) ≡ Some pass }
        ensures others { (n : ℕ) → n ≢ party_of pass → at_home self.new n ≡ at_home self.old n }
        ensures seats { seats_in self.new ≡ seats_in self.old }
    {
        let place = pass.number as usize - 1;
        self.places[place] = Some(pass);
    }
}
