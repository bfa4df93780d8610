ghost use Rattle.std.specs.Prelude.{◌≡◌, ℕ, List, Option};
ghost use Rattle.roster.specs.Values.{NoneTwice, count_of, value_at};

/// What knows the values of types. A type goes by its number.
pub trait Roster {
    /// The values of each type in roster order, or none where the type is unknown.
    ghost values: { Self → ℕ → Option (List ℕ) };

    /// How many values a type has, absent if it is unknown.
    fn count(&self, ty: u16) -> Option<usize>
        ensures counts_the_values { result ≡ count_of (values self.now ty) };

    /// The value at a position from 1, absent elsewhere.
    fn value(&self, ty: u16, position: usize) -> Option<u16>
        ensures tells_the_value { result ≡ value_at (values self.now ty) position };

    /// No type has a value twice.
    ghost different: { (roster : Self) (ty : ℕ) → NoneTwice (values roster ty) };
}
