// A vector whose meaning is its items alone.
ghost use Rattle.std.specs.Prelude.{◌≡◌};

use std::marker::Model;

/// Items in order, kept in a vector. Contracts see the list, and nothing of the vector's room.
#[derive(Debug, Drop)]
pub struct Sequence<T> {
    kept: Vec<T>,
}

impl<T> Model for Sequence<T> {
    ghost use Rattle.std.specs.Prelude.{List};

    ghost Value = { List T };

    ghost view = { λ s. s.kept.items };
}

impl<T> Sequence<T> {
    /// The items of a vector.
    pub fn new(kept: Vec<T>) -> Sequence<T>
        ensures { result ≡ kept.items }
    {
        Sequence { kept }
    }

    /// The items in order.
    pub fn as_slice(&self) -> &[T]
        ensures { result.now ≡ self.now }
    {
        self.kept.as_slice()
    }

    /// The items as a vector, whose memory is taken over.
    pub fn into_vec(self) -> Vec<T>
        ensures { result.items ≡ self }
    {
        self.kept
    }
}
