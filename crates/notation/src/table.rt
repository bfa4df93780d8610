ghost use Rattle.std.specs.Prelude.{◌≡◌, ◌+◌, ◌<◌, ◌≤◌, ◌==◌, [], ◌∷◌, ◌++◌, length, take, drop, replicate};

use std::marker::Model;

/// A list of at most `N` elements that lie in the value itself: by a rule of the project there is no heap. It is `Copy`, as the nodes
/// are that hold it and are handed out, which the kit's `ArrayVec` is not. A place not in use holds what the table was made with.
#[derive(Clone, Copy)]
pub struct Table<T, const N: usize> {
    places: [T; N],
    used: usize,
}

impl<T, const N: usize> Model for Table<T, N> {
    ghost use Rattle.std.specs.Prelude.{◌≡◌, ◌≤◌, ◌++◌, length, take, drop};
    ghost use Rattle.std.proofs.Common.{arith, take-append-drop, length-take-le};
    ghost use Rattle.notation.specs.Tables.{Table as Listed, table_code};

    ghost Value = { Listed T };

    ghost coded = { table_code T.code };

    ghost view = { λ t. record { items = take t.used t.places; spare = drop t.used t.places } };

    ghost invariant = { λ t. (t.used ≤ N) × (length t.places ≡ N) };

    ghost inverse = { λ t. record { places = t.items ++ t.spare; used = length t.items } };

    ghost inverse_ok = { λ t h i. record {
      places = take-append-drop t.used t.places i;
      used = length-take-le t.used t.places (omega (arith, h.0, h.1)) i;
    } };
}

// A caller sees the value alone and not its invariant, so calls say again that it fits.
impl<T: Copy, const N: usize> Table<T, N> {
    /// An empty table, with `blank` in each place.
    pub fn new(blank: T) -> Table<T, N>
        ensures holds_nothing { result.items ≡ [] }
        ensures is_blank_elsewhere { result.spare ≡ replicate N blank }
    {
        Table::of([blank; N], 0)
    }

    /// The first `used` of these places, or all of them; the others are not in use.
    pub fn of(places: [T; N], used: usize) -> Table<T, N>
        ensures holds_the_first { result.items ≡ take used places }
        ensures keeps_the_others { result.spare ≡ drop used places }
    {
        Table {
            places,
            used: used.min(N),
        }
    }

    /// How many elements it holds.
    pub fn len(&self) -> usize
        ensures counts { result ≡ length self.now.items }
        ensures fits { result ≤ N }
        ensures has_n_places { length self.now.items + length self.now.spare ≡ N }
    {
        self.used
    }

    /// Whether it holds no element.
    pub fn is_empty(&self) -> bool
        ensures says_whether_empty { result ≡ (length self.now.items == 0) }
    {
        self.len() == 0
    }

    /// Whether no further element has room.
    pub fn is_full(&self) -> bool
        ensures says_whether_full { result ≡ (length self.now.items == N) }
        ensures fits { length self.now.items ≤ N }
    {
        self.len() == N
    }

    /// The elements in order.
    pub fn as_slice(&self) -> &[T]
        ensures is_what_it_holds { result.now ≡ self.now.items }
        ensures fits { length result.now ≤ N }
    {
        &self.places[..self.used]
    }

    /// Puts an element behind the others. There must be room.
    pub fn push(&mut self, x: T)
        requires { length self.old.items < N }
        ensures holds_one_more { self.new.items ≡ self.old.items ++ x ∷ [] }
        ensures takes_a_spare_place { self.new.spare ≡ drop 1 self.old.spare }
    {
        self.places[self.used] = x;
        self.used += 1;
    }
}
