ghost use Rattle.std.specs.Prelude.{◌≡◌, ℕ, ◌<◌, ◌≤◌, true, Some, None, MatchResult, ◌≢◌, slice_index_or};
ghost use Rattle.std.specs.List.{range_with_len};
ghost use Rattle.fault.specs.Asking.{refusal, answer_or, IfRefused, UnlessRefused};
ghost use Rattle.roster.specs.Runs.{in_range, range_values, ranges_values, range_asks, entries_after};
ghost use Rattle.roster.specs.Values.{count_of, value_at};
ghost use Rattle.roster.specs.Counted.{counted-different};

use crate::range::Range;
use crate::ranges::Ranges;
use crate::roster::Roster;
use fault::fault::{Fault, Question};

impl Range {
    /// The range that a setting of a type names, if its fields are in range.
    fn checked(ty: u16, first: u16, count: u16) -> Result<Range, Fault>
        ensures { MatchResult result
            (λ range. (range ≡ record { first = first; count = count }) × (in_range (Some range) ≡ true) × (ty ≤ 7) × (refusal (range_asks ty first count) ≡ None))
            (λ f. refusal (range_asks ty first count) ≡ Some f) }
    {
        // a rule of the project: the place is the wrong field's number, from 0
        if ty > 7 {
            return Err(Question::SettingInRange.at(0));
        }
        if count > 16 || u32::from(first) + u32::from(count) > 65_536 {
            return Err(Question::SettingInRange.at(2));
        }
        Ok(Range { first, count })
    }

    /// How many values it has.
    fn len(self) -> usize
        ensures { Some result ≡ count_of (range_values (Some self)) }
    {
        usize::from(self.count)
    }

    /// The value at a position from 1, absent elsewhere.
    #[tactic(auto, using(crate::proofs::Valued::at_index))]
    fn value(self, position: usize) -> Option<u16>
        requires { in_range (Some self) ≡ true }
        ensures { result ≡ value_at (range_values (Some self)) position }
    {
        let index = u16::try_from(position.checked_sub(1)?).ok()?;
        (index < self.count).then(|| self.first + index)
    }
}

impl Ranges {
    /// Knows no type.
    pub fn new() -> Ranges
        ensures knows_no_type { (ty : ℕ) → ranges_values result.entries ty ≡ None }
    {
        Ranges { entries: [None; 8] }
    }

    // a guard host has this chain of three library calls for its entries; a crate for the two to share would hold nothing else
    fn range(&self, ty: u16) -> Option<Range>
        ensures finds { result ≡ slice_index_or self.now.entries ty None }
        ensures fits { in_range result ≡ true }
        ensures ends { 7 < ty → result ≡ None }
    {
        self.entries.get(usize::from(ty)).copied().flatten()
    }

    /// Gives a type the values `first`, the next one, and so on, `count` of them, in place of what it had.
    pub fn set(&mut self, ty: u16, first: u16, count: u16) -> Result<(), Fault>
        ensures refuses_at_the_first_wrong_field { result ≡ answer_or (refusal (range_asks ty first count)) tt }
        ensures changes_nothing_if_refused { IfRefused result (self.new ≡ self.old) }
        ensures means_exactly_the_range_unless_refused { UnlessRefused result (ranges_values self.new.entries ty ≡ Some (range_with_len first count)) }
        ensures leaves_other_types { (other : ℕ) → (other ≢ ty) → ranges_values self.new.entries other ≡ ranges_values self.old.entries other }
        ensures replaces_one_entry { self.new.entries ≡ entries_after result self.old.entries ty (record { first = first; count = count }) }
    {
        let range = Range::checked(ty, first, count)?;
        self.entries[usize::from(ty)] = Some(range);
        Ok(())
    }
}

impl Roster for Ranges {
    ghost values = { λ ranges ty. ranges_values ranges.entries ty };

    ghost different = { λ roster ty. counted-different (slice_index_or roster.entries ty None) };

    fn count(&self, ty: u16) -> Option<usize>
        ensures counts_the_values { result ≡ count_of (ranges_values self.now.entries ty) }
        ensures knows_no_type_above_7 { 7 < ty → result ≡ None }
    {
        self.range(ty).map(|range| range.len())
    }

    fn value(&self, ty: u16, position: usize) -> Option<u16> {
        self.range(ty)?.value(position)
    }
}
