//! Objects with a list of entries that only grows.
ghost use Rattle.std.specs.Prelude.{◌≡◌, ℕ, List, length};

/// An object with a list of entries, room for more of them, and a basis that stays the same.
pub trait Annals {
    /// What the list has.
    type Entry;
    /// Plain data on which the entries rest.
    type Basis;

    /// The entries so far.
    ghost entries: { Self → List Self.Entry };

    /// How many more entries fit.
    ghost spare: { Self → ℕ };

    ghost basis: { Self → Self.Basis };

    /// The number of entries.
    fn count(&self) -> u64
        ensures { result ≡ length (entries self.now) };

    /// How many more entries fit.
    fn room(&self) -> u64
        ensures { result ≡ spare self.now };
}
