//! What a value must have to lie behind the lock.
ghost use Rattle.std.specs.Prelude.{◌≡◌, ℕ, ◌^◌, ◌<◌, List};

/// A value that keeps a list of entries, its trail, each made by one party.
pub trait Trailed {
    /// One entry of the trail. Contracts alone name it.
    type Entry;

    /// What no turn changes.
    type Fixed;

    // The entries that the value keeps, in the order in which they were made.
    ghost entries: { Self → List Self.Entry };

    ghost fixed: { Self → Self.Fixed };

    // The number of the party that made an entry.
    ghost party: { Self.Entry → ℕ };

    /// The number of entries.
    fn length(&self) -> u32
        requires { Rattle.std.specs.Prelude.length (entries self.now) < 2 ^ 32 }
        ensures { result ≡ Rattle.std.specs.Prelude.length (entries self.now) };
}
