//! What a value in a cell provides.
ghost use Rattle.std.specs.Prelude.{◌≡◌, ℕ, List, Option, length};

/// A value that can be in a cell: it stores a list of entries, and has a name that no turn changes. It is `Drop`
/// since `Cells::new` drops the values if memory runs out.
pub trait Kept: Drop {
    type Entry;

    /// Plain data that identifies the value, such as the number of a line.
    type Name;

    // The entries that it stores, in order.
    ghost entries: { Self → List Self.Entry };

    ghost name: { Self → Self.Name };

    // The number of the pass that signed an entry.
    ghost signature: { Self.Entry → Option ℕ };

    /// How many entries it stores.
    fn count(&self) -> usize
        ensures { result ≡ length (entries self.now) };
}
