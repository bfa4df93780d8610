ghost use Rattle.std.specs.Prelude.{◌≡◌, ℕ, ◌+◌, ◌≤◌, Decides, min, [], length, take};
ghost use Rattle.std.specs.List.{slice_get};
ghost use mathlib.Core.List.{Memᴰ};
ghost use Rattle.ordered.specs.Held.{held, room, places_from};
ghost use Rattle.ordered.specs.Order.{kept, spills, StaysRising, HoldsNothingElse, HoldsExactly, LeavesOutAbove};

use crate::list::Ordered;
use crate::placing::{insert_at, seek};
use crate::rank::Rank;

impl<'a, T: Rank + Copy> Ordered<'a, T> {
    /// An empty list over lent places.
    pub fn over(places: &'a mut [T]) -> Ordered<'a, T>
        ensures holds_nothing { held result ≡ [] }
        ensures lends_these_places { result.places.now ≡ places.old }
        ensures keeps_its_lender { result.places.ghost_name ≡ places.entry.ghost_name }
    {
        Ordered { places, used: 0 }
    }

    /// How many elements it holds.
    pub fn len(&self) -> usize
        ensures counts_what_is_held { result ≡ length (held self.now) }
        ensures so_many_first_places_are_what_is_held { take result self.now.places.now ≡ held self.now }
    {
        self.used
    }

    /// How many it has room for.
    pub fn room(&self) -> usize
        ensures counts_the_places { result ≡ room self.now }
    {
        self.places.len()
    }

    /// The elements in order.
    pub fn as_slice(&self) -> &[T]
        ensures tells_what_is_held { result.now ≡ held self.now }
    {
        &self.places[0..self.used]
    }

    /// The element at a position from 0, absent past the last.
    pub fn get(&self, position: usize) -> Option<T>
        ensures tells_the_element { result ≡ slice_get (held self.now) position }
    {
        self.as_slice().get(position).copied()
    }

    /// Whether an element is held.
    pub fn has(&self, x: &T) -> bool
        ensures tells_whether_it_is_held { Decides result (Memᴰ x.now (held self.now)) }
    {
        seek(self.as_slice(), x).is_ok()
    }

    /// How many places are in use with one more, if there is one more.
    fn grown(&self) -> usize
        ensures { result ≡ min (room self.now) (self.now.used + 1) }
    {
        // not `min(self.used + 1)` of the room: that sum may wrap where elements have no size
        let spare = self.used < self.places.len();
        usize::from(spare) + self.used
    }

    /// Puts an element in, unless it is there. Where there is no room for all, the last is left out, and the answer is yes.
    pub fn insert(&mut self, x: T) -> bool
        ensures holds_the_first_in_order { held self.new ≡ kept T.rank (room self.old) (held self.old) x }
        ensures says_whether_one_is_left_out { result ≡ spills T.rank (room self.old) (held self.old) x }
        ensures leaves_later_places { (n : ℕ) → length (held self.new) ≤ n → places_from n self.new ≡ places_from n self.old }
        ensures holds_no_fewer { length (held self.old) ≤ length (held self.new) }
        ensures keeps_its_room { room self.new ≡ room self.old }
        ensures keeps_its_lender { self.new.places.ghost_name ≡ self.old.places.ghost_name }
        ensures stays_rising { StaysRising T.rank (held self.old) (held self.new) }
        ensures holds_nothing_else { HoldsNothingElse (held self.old) x (held self.new) }
        ensures holds_exactly_old_and_new_unless_one_is_left_out { HoldsExactly (held self.old) x (held self.new) result }
        ensures leaves_out_only_what_is_above { LeavesOutAbove T.rank (held self.old) x (held self.new) }
    {
        let Err(at) = seek(self.as_slice(), &x) else {
            return false;
        };
        let end = self.grown();
        let full = end == self.used;
        insert_at(self.places, at, end, x);
        self.used = end;
        full
    }
}
