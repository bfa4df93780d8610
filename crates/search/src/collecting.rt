ghost use Rattle.std.specs.Prelude.{◌≡◌, ℕ, ◌+◌, ◌<◌, ◌≤◌, length, Some};
ghost use Rattle.std.specs.List.{slice_get};
ghost use mathlib.Core.List.{Memᴰ};
ghost use Rattle.notation.specs.declared.node.Node.TheVariants.{Automaton, Guard};
ghost use Rattle.ordered.specs.Held.{held, room};
ghost use Rattle.row.specs.declared.row.Row.{Row};
ghost use Rattle.rules.specs.Trees.{sequence, closure, guarded, choice, synchronisation, quantified_choice, quantified_synchronisation};
ghost use Rattle.rules.specs.Growing.{labels_of};
ghost use Rattle.motions.specs.Ways.{Any};
ghost use Rattle.motions.specs.Collecting.{Stays};
ghost use Rattle.diagram.specs.Valued.{values_of};
ghost use Rattle.diagram.specs.Parts.{part_tree, part_width, IsPartOf, InPlace};
ghost use Rattle.search.specs.Searching.{Behind, Child, Beside, Bound, InstancesInside, Collects, CollectsIf, DecidesAny, successors_of, all_ways};
ghost use Rattle.search.specs.Searching.{RowsOfPart, RowsOfEach, RowsOfStart, RowsOfResume, RowsOfEitherSide, RowsOfBothSides, RowsOfSomeStart, RowsOfChosen, RowsOfOneInstance, RowsOfAllInstances, RowsOfAllInstancesOfEach};

use crate::firing::put;
use crate::leading::in_set;
use crate::overflow::Overflow;
use crate::search::Search;
use diagram::part::Part;
use notation::arrow::Arrow;
use notation::node::{Labels, Node, States};
use ordered::list::Ordered;
use row::row::Row;

/// A scratch list has so many places where the list that is collected into has no more, and 128 elsewhere: clearing those takes its time.
pub const FEW: usize = 8;

impl Search<'_> {
    /// If it is allowed to, a child moves from its initial state, behind a tag.
    #[cycle(collecting)]
    fn start(
        &self,
        allowed: bool,
        tag: u16,
        part: Part,
        child: Part,
        row: &Row,
        out: &mut Ordered<Row>,
    ) -> Result<(), Overflow>
        requires is_in_place { InPlace self.now.diagram.now part }
        requires is_behind { Behind self.now.diagram.now part child }
        ensures stays { Stays out.old out.new }
        ensures adds { Collects self.now (RowsOfStart self.now allowed tag part child row.now) out.old out.new result }
    {
        if !allowed {
            return Ok(());
        }
        let size = self.diagram.width(usize::from(part.node));
        let entered = self
            .diagram
            .enter(tag, Some(child.node), *row, part.at, size);
        self.collect(child, &entered, out)
    }

    /// If it is allowed to, a child moves from where it is, behind a tag.
    #[cycle(collecting)]
    fn resume(
        &self,
        allowed: bool,
        tag: u16,
        part: Part,
        child: Part,
        row: &Row,
        out: &mut Ordered<Row>,
    ) -> Result<(), Overflow>
        requires is_in_place { InPlace self.now.diagram.now part }
        requires is_behind { Behind self.now.diagram.now part child }
        ensures stays { Stays out.old out.new }
        ensures adds { Collects self.now (RowsOfResume self.now allowed tag part child row.now) out.old out.new result }
    {
        if !allowed {
            return Ok(());
        }
        let size = self.diagram.width(usize::from(part.node));
        let stayed = self
            .diagram
            .stay(tag, Some(child.node), *row, part.at, size);
        self.collect(child, &stayed, out)
    }

    /// An automaton: its arrows lead out of its state (aut-1), or the state's child moves (aut-6).
    #[cycle(collecting)]
    fn automaton(
        &self,
        part: Part,
        states: &States,
        row: &Row,
        out: &mut Ordered<Row>,
    ) -> Result<(), Overflow>
        requires is_in_place { InPlace self.now.diagram.now part }
        requires is_this_node { IsPartOf self.now.diagram.now (Automaton states.now) part }
        ensures stays { Stays out.old out.new }
        ensures adds { Collects self.now (RowsOfPart self.now part row.now) out.old out.new result }
    {
        self.fire(part, states, row, out)?;
        let state = row.cells[part.at];
        match states.state(state).child {
            None => Ok(()),
            Some(child) => self.resume(true, state, part, part.of(child, part.at + 1), row, out),
        }
    }

    /// A sequence: its first part moves (seq-1), hands over to the second when it is finished (seq-2), or the second moves (seq-3).
    #[cycle(collecting)]
    fn sequence(
        &self,
        part: Part,
        first: Part,
        second: Part,
        row: &Row,
        out: &mut Ordered<Row>,
    ) -> Result<(), Overflow>
        requires is_in_place { InPlace self.now.diagram.now part }
        requires is_sequence { part_tree self.now.diagram.now part ≡ sequence (part_tree self.now.diagram.now first) (part_tree self.now.diagram.now second) }
        requires first_is_behind { Child self.now.diagram.now part first }
        requires second_is_behind { Child self.now.diagram.now part second }
        ensures stays { Stays out.old out.new }
        ensures adds { Collects self.now (RowsOfPart self.now part row.now) out.old out.new result }
    {
        let tag = row.cells[part.at];
        let done = tag == 0
            && self
                .diagram
                .finished(usize::from(first.node), row, first.at);
        self.resume(tag == 0, 0, part, first, row, out)?;
        self.start(done, 1, part, second, row, out)?;
        self.resume(tag == 1, 1, part, second, row, out)
    }

    /// A closure: its body starts, when the closure is finished (clo-1), or moves on (clo-2).
    #[cycle(collecting)]
    fn closure(
        &self,
        part: Part,
        body: Part,
        row: &Row,
        out: &mut Ordered<Row>,
    ) -> Result<(), Overflow>
        requires is_in_place { InPlace self.now.diagram.now part }
        requires is_closure { part_tree self.now.diagram.now part ≡ closure (part_tree self.now.diagram.now body) }
        requires body_is_behind { Child self.now.diagram.now part body }
        ensures stays { Stays out.old out.new }
        ensures adds { Collects self.now (RowsOfPart self.now part row.now) out.old out.new result }
    {
        let done = self.diagram.finished(usize::from(part.node), row, part.at);
        self.start(done, 1, part, body, row, out)?;
        self.resume(row.cells[part.at] == 1, 1, part, body, row, out)
    }

    /// A guard: its body starts, if the guard holds (gua-1), or moves on without being asked (gua-2).
    #[cycle(collecting)]
    fn guard(
        &self,
        number: u16,
        part: Part,
        body: Part,
        row: &Row,
        out: &mut Ordered<Row>,
    ) -> Result<(), Overflow>
        requires is_in_place { InPlace self.now.diagram.now part }
        requires is_this_node { IsPartOf self.now.diagram.now (Guard number body.node) part }
        requires is_guarded { part_tree self.now.diagram.now part ≡ guarded number (part_tree self.now.diagram.now body) }
        requires body_is_behind { Child self.now.diagram.now part body }
        ensures stays { Stays out.old out.new }
        ensures adds { Collects self.now (RowsOfPart self.now part row.now) out.old out.new result }
    {
        let tag = row.cells[part.at];
        let holds = tag == 0 && self.answers.of_node(usize::from(part.node), part.scope);
        self.start(holds, 1, part, body, row, out)?;
        self.resume(tag == 1, 1, part, body, row, out)
    }

    /// A choice: either side starts (cho-1, cho-2), or the chosen one moves on (cho-3, cho-4).
    #[cycle(collecting)]
    fn choice(
        &self,
        part: Part,
        left: Part,
        right: Part,
        row: &Row,
        out: &mut Ordered<Row>,
    ) -> Result<(), Overflow>
        requires is_in_place { InPlace self.now.diagram.now part }
        requires is_choice { part_tree self.now.diagram.now part ≡ choice (part_tree self.now.diagram.now left) (part_tree self.now.diagram.now right) }
        requires left_is_behind { Child self.now.diagram.now part left }
        requires right_is_behind { Child self.now.diagram.now part right }
        ensures stays { Stays out.old out.new }
        ensures adds { Collects self.now (RowsOfPart self.now part row.now) out.old out.new result }
    {
        let tag = row.cells[part.at];
        self.start(tag == 0, 1, part, left, row, out)?;
        self.start(tag == 0, 2, part, right, row, out)?;
        self.resume(tag == 1, 1, part, left, row, out)?;
        self.resume(tag == 2, 2, part, right, row, out)
    }

    /// One side or the other moves alone, where the label is not in the set (syn-1, syn-2).
    #[cycle(collecting)]
    fn either_side(
        &self,
        part: Part,
        left: Part,
        right: Part,
        row: &Row,
        out: &mut Ordered<Row>,
    ) -> Result<(), Overflow>
        requires are_beside { Beside self.now.diagram.now part left right }
        ensures stays { Stays out.old out.new }
        ensures adds { Collects self.now (RowsOfEitherSide self.now left right row.now) out.old out.new result }
    {
        self.collect(left, row, out)?;
        self.collect(right, row, out)
    }

    /// Both sides move, which both can (syn-3), with a scratch list in places that are lent. The right side still can where the left one has moved, so it is not asked again.
    // there are no fewer places than in the list that is collected into: if these overflow, so would that; in line in the two that lend, so that it takes no more of the stack
    #[inline(always)]
    #[cycle(collecting)]
    fn both_move_in(
        &self,
        part: Part,
        left: Part,
        right: Part,
        row: &Row,
        places: &mut [Row],
        out: &mut Ordered<Row>,
    ) -> Result<(), Overflow>
        requires are_beside { Beside self.now.diagram.now part left right }
        requires are_inside { right.at + part_width self.now.diagram.now right ≤ 48 }
        requires are_few_enough { length places.old ≤ 128 }
        ensures stays { Stays out.old out.new }
        ensures adds { room out.old ≤ length places.old → CollectsIf self.now (λ g. Any (successors_of self.now left row.now g) × Any (successors_of self.now right row.now g)) (RowsOfBothSides self.now part left right row.now) out.old out.new result }
    {
        let mut moved = Ordered::over(places);
        self.collect_movable(left, row, &mut moved)?;
        self.each_movable(right, moved.as_slice(), out)
    }

    /// The same for a list of few places.
    // out of line like the next, so that what calls them and does more takes no place on the stack for the scratch list
    #[inline(never)]
    #[cycle(collecting)]
    fn both_move_in_few(
        &self,
        part: Part,
        left: Part,
        right: Part,
        row: &Row,
        out: &mut Ordered<Row>,
    ) -> Result<(), Overflow>
        requires are_beside { Beside self.now.diagram.now part left right }
        requires are_inside { right.at + part_width self.now.diagram.now right ≤ 48 }
        requires has_few { room out.old ≤ 8 }
        ensures stays { Stays out.old out.new }
        ensures adds { CollectsIf self.now (λ g. Any (successors_of self.now left row.now g) × Any (successors_of self.now right row.now g)) (RowsOfBothSides self.now part left right row.now) out.old out.new result }
    {
        let mut places = [Row { cells: [0; 48] }; FEW];
        self.both_move_in(part, left, right, row, &mut places, out)
    }

    /// The same for any list: none that is collected into has more places.
    #[inline(never)]
    #[cycle(collecting)]
    fn both_move_in_many(
        &self,
        part: Part,
        left: Part,
        right: Part,
        row: &Row,
        out: &mut Ordered<Row>,
    ) -> Result<(), Overflow>
        requires are_beside { Beside self.now.diagram.now part left right }
        requires are_inside { right.at + part_width self.now.diagram.now right ≤ 48 }
        ensures stays { Stays out.old out.new }
        ensures adds { CollectsIf self.now (λ g. Any (successors_of self.now left row.now g) × Any (successors_of self.now right row.now g)) (RowsOfBothSides self.now part left right row.now) out.old out.new result }
    {
        let mut places = [Row { cells: [0; 48] }; 128];
        self.both_move_in(part, left, right, row, &mut places, out)
    }

    /// Both sides move, which both can (syn-3).
    #[cycle(collecting)]
    fn both_move(
        &self,
        part: Part,
        left: Part,
        right: Part,
        row: &Row,
        out: &mut Ordered<Row>,
    ) -> Result<(), Overflow>
        requires are_beside { Beside self.now.diagram.now part left right }
        requires are_inside { right.at + part_width self.now.diagram.now right ≤ 48 }
        ensures stays { Stays out.old out.new }
        ensures adds { CollectsIf self.now (λ g. Any (successors_of self.now left row.now g) × Any (successors_of self.now right row.now g)) (RowsOfBothSides self.now part left right row.now) out.old out.new result }
    {
        if out.room() <= FEW {
            self.both_move_in_few(part, left, right, row, out)
        } else {
            self.both_move_in_many(part, left, right, row, out)
        }
    }

    /// Both sides move, where the label is in the set. It is asked first whether they can, so that what one side gives is never in vain.
    #[cycle(collecting)]
    fn both_sides(
        &self,
        part: Part,
        left: Part,
        right: Part,
        row: &Row,
        out: &mut Ordered<Row>,
    ) -> Result<(), Overflow>
        requires are_beside { Beside self.now.diagram.now part left right }
        requires are_inside { right.at + part_width self.now.diagram.now right ≤ 48 }
        ensures stays { Stays out.old out.new }
        ensures adds { Collects self.now (RowsOfBothSides self.now part left right row.now) out.old out.new result }
    {
        if !self.can_move(left, row) || !self.can_move(right, row) {
            return Ok(());
        }
        // all can, so there is a row for which there is no place; nothing has to be collected to see that
        if out.room() == 0 {
            return Err(Overflow);
        }
        self.both_move(part, left, right, row, out)
    }

    /// A synchronisation.
    #[cycle(collecting)]
    fn synchronisation(
        &self,
        part: Part,
        left: Part,
        right: Part,
        labels: &Labels,
        row: &Row,
        out: &mut Ordered<Row>,
    ) -> Result<(), Overflow>
        requires is_in_place { InPlace self.now.diagram.now part }
        requires are_beside { Beside self.now.diagram.now part left right }
        requires is_synchronisation { part_tree self.now.diagram.now part ≡ synchronisation (labels_of labels.now) (part_tree self.now.diagram.now left) (part_tree self.now.diagram.now right) }
        ensures stays { Stays out.old out.new }
        ensures adds { Collects self.now (RowsOfPart self.now part row.now) out.old out.new result }
    {
        if in_set(self.answers.event().label, labels) {
            self.both_sides(part, left, right, row, out)
        } else {
            self.either_side(part, left, right, row, out)
        }
    }

    /// A synchronisation that can move: where its label is in the set, so can both sides.
    #[cycle(collecting)]
    fn movable_synchronisation(
        &self,
        part: Part,
        left: Part,
        right: Part,
        labels: &Labels,
        row: &Row,
        out: &mut Ordered<Row>,
    ) -> Result<(), Overflow>
        requires is_in_place { InPlace self.now.diagram.now part }
        requires are_beside { Beside self.now.diagram.now part left right }
        requires is_synchronisation { part_tree self.now.diagram.now part ≡ synchronisation (labels_of labels.now) (part_tree self.now.diagram.now left) (part_tree self.now.diagram.now right) }
        ensures stays { Stays out.old out.new }
        ensures adds { CollectsIf self.now (λ g. Any (successors_of self.now part row.now g)) (RowsOfPart self.now part row.now) out.old out.new result }
    {
        if in_set(self.answers.event().label, labels) {
            self.both_move(part, left, right, row, out)
        } else {
            self.either_side(part, left, right, row, out)
        }
    }

    /// Collects the same part of each of some rows, in each of which it can move.
    #[cycle(collecting)]
    fn each_movable(&self, part: Part, rows: &[Row], out: &mut Ordered<Row>) -> Result<(), Overflow>
        requires is_in_place { InPlace self.now.diagram.now part }
        ensures stays { Stays out.old out.new }
        ensures adds { CollectsIf self.now (λ g. (x : Row) → Memᴰ x rows.now → Any (successors_of self.now part x g)) (RowsOfEach self.now part rows.now) out.old out.new result }
    {
        for row in rows {
            self.collect_movable(part, row, out)?;
        }
        Ok(())
    }

    /// The body moves from its initial state under some value from a position on, counted from 0, and the value is chosen (qch-1).
    #[cycle(collecting)]
    fn some_start(
        &self,
        part: Part,
        over: u16,
        body: Part,
        k: usize,
        row: &Row,
        out: &mut Ordered<Row>,
    ) -> Result<(), Overflow>
        requires is_in_place { InPlace self.now.diagram.now part }
        requires is_bound { Bound self.now.diagram.now part over body }
        requires is_behind { body.at ≡ part.at + 1 }
        requires is_narrower { (k x : ℕ) → slice_get (values_of self.now.diagram.now.plan.values over) k ≡ Some x → part_width self.now.diagram.now body < part_width self.now.diagram.now part }
        ensures stays { Stays out.old out.new }
        ensures adds { Collects self.now (RowsOfSomeStart self.now part over body k row.now) out.old out.new result }
    {
        match self.diagram.values(over).get(k) {
            None => Ok(()),
            Some(x) => {
                self.start(true, k as u16 + 1, part, body.bound(k + 1, *x), row, out)?;
                self.some_start(part, over, body, k + 1, row, out)
            }
        }
    }

    /// The body moves on under the chosen value (qch-2).
    #[cycle(collecting)]
    fn chosen_resumes(
        &self,
        part: Part,
        over: u16,
        body: Part,
        row: &Row,
        out: &mut Ordered<Row>,
    ) -> Result<(), Overflow>
        requires is_in_place { InPlace self.now.diagram.now part }
        requires is_bound { Bound self.now.diagram.now part over body }
        requires is_behind { body.at ≡ part.at + 1 }
        requires is_narrower { (k x : ℕ) → slice_get (values_of self.now.diagram.now.plan.values over) k ≡ Some x → part_width self.now.diagram.now body < part_width self.now.diagram.now part }
        requires has_a_tag { 1 ≤ part_width self.now.diagram.now part }
        ensures stays { Stays out.old out.new }
        ensures adds { Collects self.now (RowsOfChosen self.now part over body row.now) out.old out.new result }
    {
        let tag = row.cells[part.at];
        let Some(index) = usize::from(tag).checked_sub(1) else {
            return Ok(());
        };
        match self.diagram.values(over).get(index) {
            None => Ok(()),
            Some(x) => self.resume(true, tag, part, body.bound(index + 1, *x), row, out),
        }
    }

    /// A quantified choice.
    #[cycle(collecting)]
    fn quantified_choice(
        &self,
        part: Part,
        over: u16,
        body: Part,
        row: &Row,
        out: &mut Ordered<Row>,
    ) -> Result<(), Overflow>
        requires is_in_place { InPlace self.now.diagram.now part }
        requires is_bound { Bound self.now.diagram.now part over body }
        requires is_behind { body.at ≡ part.at + 1 }
        requires is_quantified_choice { part_tree self.now.diagram.now part ≡ quantified_choice (values_of self.now.diagram.now.plan.values over) (part_tree self.now.diagram.now body) }
        ensures stays { Stays out.old out.new }
        ensures adds { Collects self.now (RowsOfPart self.now part row.now) out.old out.new result }
    {
        if row.cells[part.at] == 0 {
            self.some_start(part, over, body, 0, row, out)
        } else {
            self.chosen_resumes(part, over, body, row, out)
        }
    }

    /// One of the instances from a position on, counted from 0, moves alone (qsy-1).
    #[cycle(collecting)]
    fn one_instance(
        &self,
        part: Part,
        over: u16,
        body: Part,
        k: usize,
        row: &Row,
        out: &mut Ordered<Row>,
    ) -> Result<(), Overflow>
        requires is_bound { Bound self.now.diagram.now part over body }
        requires are_inside { InstancesInside self.now.diagram.now over body k }
        ensures stays { Stays out.old out.new }
        ensures adds { Collects self.now (RowsOfOneInstance self.now over body k row.now) out.old out.new result }
    {
        match self.diagram.values(over).get(k) {
            None => Ok(()),
            Some(x) => {
                self.collect(body.bound(k + 1, *x), row, out)?;
                let next = body.of(
                    body.node,
                    body.at + self.diagram.width(usize::from(body.node)),
                );
                self.one_instance(part, over, next, k + 1, row, out)
            }
        }
    }

    /// Whether each of the instances from a position on can move.
    #[cycle(collecting)]
    fn all_can(&self, part: Part, over: u16, body: Part, k: usize, row: &Row) -> bool
        requires is_bound { Bound self.now.diagram.now part over body }
        requires are_inside { InstancesInside self.now.diagram.now over body k }
        ensures { DecidesAny self.now (all_ways self.now over body k row.now) result }
    {
        match self.diagram.values(over).get(k) {
            None => true,
            Some(x) => {
                let next = body.of(
                    body.node,
                    body.at + self.diagram.width(usize::from(body.node)),
                );
                self.can_move(body.bound(k + 1, *x), row)
                    && self.all_can(part, over, next, k + 1, row)
            }
        }
    }

    /// The instance of the value x at a position moves, and so do all later ones, which all can (qsy-2), with a scratch list in places that are lent.
    // in line for the same reason as with two sides
    #[inline(always)]
    #[cycle(collecting)]
    fn all_instances_in(
        &self,
        part: Part,
        over: u16,
        body: Part,
        k: usize,
        x: u16,
        row: &Row,
        places: &mut [Row],
        out: &mut Ordered<Row>,
    ) -> Result<(), Overflow>
        requires is_bound { Bound self.now.diagram.now part over body }
        requires are_inside { InstancesInside self.now.diagram.now over body k }
        requires is_a_position { k < 16 }
        requires is_its_value { slice_get (values_of self.now.diagram.now.plan.values over) k ≡ Some x }
        requires are_few_enough { length places.old ≤ 128 }
        ensures stays { Stays out.old out.new }
        ensures adds { room out.old ≤ length places.old → CollectsIf self.now (λ g. Any (all_ways self.now over body k row.now g)) (RowsOfAllInstances self.now over body k row.now) out.old out.new result }
    {
        let mut moved = Ordered::over(places);
        self.collect_movable(body.bound(k + 1, x), row, &mut moved)?;
        let next = body.of(
            body.node,
            body.at + self.diagram.width(usize::from(body.node)),
        );
        self.all_instances_of_each(part, over, next, k + 1, &moved, out)
    }

    /// The same for a list of few places.
    #[inline(never)]
    #[cycle(collecting)]
    fn all_instances_in_few(
        &self,
        part: Part,
        over: u16,
        body: Part,
        k: usize,
        x: u16,
        row: &Row,
        out: &mut Ordered<Row>,
    ) -> Result<(), Overflow>
        requires is_bound { Bound self.now.diagram.now part over body }
        requires are_inside { InstancesInside self.now.diagram.now over body k }
        requires is_a_position { k < 16 }
        requires is_its_value { slice_get (values_of self.now.diagram.now.plan.values over) k ≡ Some x }
        requires has_few { room out.old ≤ 8 }
        ensures stays { Stays out.old out.new }
        ensures adds { CollectsIf self.now (λ g. Any (all_ways self.now over body k row.now g)) (RowsOfAllInstances self.now over body k row.now) out.old out.new result }
    {
        let mut places = [Row { cells: [0; 48] }; FEW];
        self.all_instances_in(part, over, body, k, x, row, &mut places, out)
    }

    /// The same for any list: none that is collected into has more places.
    #[inline(never)]
    #[cycle(collecting)]
    fn all_instances_in_many(
        &self,
        part: Part,
        over: u16,
        body: Part,
        k: usize,
        x: u16,
        row: &Row,
        out: &mut Ordered<Row>,
    ) -> Result<(), Overflow>
        requires is_bound { Bound self.now.diagram.now part over body }
        requires are_inside { InstancesInside self.now.diagram.now over body k }
        requires is_a_position { k < 16 }
        requires is_its_value { slice_get (values_of self.now.diagram.now.plan.values over) k ≡ Some x }
        ensures stays { Stays out.old out.new }
        ensures adds { CollectsIf self.now (λ g. Any (all_ways self.now over body k row.now g)) (RowsOfAllInstances self.now over body k row.now) out.old out.new result }
    {
        let mut places = [Row { cells: [0; 48] }; 128];
        self.all_instances_in(part, over, body, k, x, row, &mut places, out)
    }

    /// All of the instances from a position on move, which all can (qsy-2).
    #[cycle(collecting)]
    fn all_instances(
        &self,
        part: Part,
        over: u16,
        body: Part,
        k: usize,
        row: &Row,
        out: &mut Ordered<Row>,
    ) -> Result<(), Overflow>
        requires is_bound { Bound self.now.diagram.now part over body }
        requires are_inside { InstancesInside self.now.diagram.now over body k }
        ensures stays { Stays out.old out.new }
        ensures adds { CollectsIf self.now (λ g. Any (all_ways self.now over body k row.now g)) (RowsOfAllInstances self.now over body k row.now) out.old out.new result }
    {
        match self.diagram.values(over).get(k) {
            None => put(*row, out),
            Some(x) if out.room() <= FEW => {
                self.all_instances_in_few(part, over, body, k, *x, row, out)
            }
            Some(x) => self.all_instances_in_many(part, over, body, k, *x, row, out),
        }
    }

    /// The same of each of some rows.
    #[cycle(collecting)]
    fn all_instances_of_each(
        &self,
        part: Part,
        over: u16,
        body: Part,
        k: usize,
        rows: &Ordered<Row>,
        out: &mut Ordered<Row>,
    ) -> Result<(), Overflow>
        requires is_bound { Bound self.now.diagram.now part over body }
        requires are_inside { InstancesInside self.now.diagram.now over body k }
        ensures stays { Stays out.old out.new }
        ensures adds { CollectsIf self.now (λ g. (x : Row) → Memᴰ x (held rows.now) → Any (all_ways self.now over body k x g)) (RowsOfAllInstancesOfEach self.now over body k (held rows.now)) out.old out.new result }
    {
        for row in rows.as_slice() {
            self.all_instances(part, over, body, k, row, out)?;
        }
        Ok(())
    }

    /// A quantified synchronisation. Where its label is in the set, it is asked first whether every instance can move.
    #[cycle(collecting)]
    fn quantified_synchronisation(
        &self,
        part: Part,
        over: u16,
        body: Part,
        labels: &Labels,
        row: &Row,
        out: &mut Ordered<Row>,
    ) -> Result<(), Overflow>
        requires is_in_place { InPlace self.now.diagram.now part }
        requires is_bound { Bound self.now.diagram.now part over body }
        requires is_first { body.at ≡ part.at }
        requires is_quantified_synchronisation { part_tree self.now.diagram.now part ≡ quantified_synchronisation (values_of self.now.diagram.now.plan.values over) (labels_of labels.now) (part_tree self.now.diagram.now body) }
        ensures stays { Stays out.old out.new }
        ensures adds { Collects self.now (RowsOfPart self.now part row.now) out.old out.new result }
    {
        if !in_set(self.answers.event().label, labels) {
            return self.one_instance(part, over, body, 0, row, out);
        }
        if self.diagram.values(over).is_empty() || !self.all_can(part, over, body, 0, row) {
            return Ok(());
        }
        // all can, so there is a row for which there is no place; nothing has to be collected to see that
        if out.room() == 0 {
            return Err(Overflow);
        }
        self.all_instances(part, over, body, 0, row, out)
    }

    /// A quantified synchronisation that can move: where its label is in the set, so can every instance.
    #[cycle(collecting)]
    fn movable_quantified_synchronisation(
        &self,
        part: Part,
        over: u16,
        body: Part,
        labels: &Labels,
        row: &Row,
        out: &mut Ordered<Row>,
    ) -> Result<(), Overflow>
        requires is_in_place { InPlace self.now.diagram.now part }
        requires is_bound { Bound self.now.diagram.now part over body }
        requires is_first { body.at ≡ part.at }
        requires is_quantified_synchronisation { part_tree self.now.diagram.now part ≡ quantified_synchronisation (values_of self.now.diagram.now.plan.values over) (labels_of labels.now) (part_tree self.now.diagram.now body) }
        ensures stays { Stays out.old out.new }
        ensures adds { CollectsIf self.now (λ g. Any (successors_of self.now part row.now g)) (RowsOfPart self.now part row.now) out.old out.new result }
    {
        if in_set(self.answers.event().label, labels) {
            self.all_instances(part, over, body, 0, row, out)
        } else {
            self.one_instance(part, over, body, 0, row, out)
        }
    }

    /// Puts the row with a part replaced by each of its successors into a list.
    #[cycle(collecting)]
    pub fn collect(&self, part: Part, row: &Row, out: &mut Ordered<Row>) -> Result<(), Overflow>
        requires is_in_place { InPlace self.now.diagram.now part }
        ensures stays { Stays out.old out.new }
        ensures adds_the_successors { Collects self.now (RowsOfPart self.now part row.now) out.old out.new result }
    {
        let behind = part.at + 1;
        match self.diagram.node(usize::from(part.node)) {
            Node::Automaton { states } => self.automaton(part, &states, row, out),
            Node::Sequence { first, second } => {
                self.sequence(
                    part,
                    part.of(first, behind),
                    part.of(second, behind),
                    row,
                    out,
                )
            }
            Node::Closure { body } => self.closure(part, part.of(body, behind), row, out),
            Node::Guard { guard, body } => self.guard(guard, part, part.of(body, behind), row, out),
            Node::Choice { left, right } => {
                self.choice(
                    part,
                    part.of(left, behind),
                    part.of(right, behind),
                    row,
                    out,
                )
            }
            Node::Synchronisation {
                left,
                right,
                labels,
            } => {
                let left = part.of(left, part.at);
                let right = part.of(right, part.at + self.diagram.width(usize::from(left.node)));
                self.synchronisation(part, left, right, &labels, row, out)
            }
            Node::QuantifiedChoice { over, body } => self.quantified_choice(
                part,
                over,
                part.of(body, behind),
                row,
                out,
            ),
            Node::QuantifiedSynchronisation { over, body, labels } => {
                self.quantified_synchronisation(
                    part,
                    over,
                    part.of(body, part.at),
                    &labels,
                    row,
                    out,
                )
            }
        }
    }

    /// The same of a part that can move, as is known already: where all its sides or instances have to move, they are not asked again.
    #[cycle(collecting)]
    fn collect_movable(&self, part: Part, row: &Row, out: &mut Ordered<Row>) -> Result<(), Overflow>
        requires is_in_place { InPlace self.now.diagram.now part }
        ensures stays { Stays out.old out.new }
        ensures adds { CollectsIf self.now (λ g. Any (successors_of self.now part row.now g)) (RowsOfPart self.now part row.now) out.old out.new result }
    {
        match self.diagram.node(usize::from(part.node)) {
            Node::Synchronisation {
                left,
                right,
                labels,
            } => {
                let left = part.of(left, part.at);
                let right = part.of(right, part.at + self.diagram.width(usize::from(left.node)));
                self.movable_synchronisation(part, left, right, &labels, row, out)
            }
            Node::QuantifiedSynchronisation { over, body, labels } => {
                self.movable_quantified_synchronisation(
                    part,
                    over,
                    part.of(body, part.at),
                    &labels,
                    row,
                    out,
                )
            }
            _ => self.collect(part, row, out),
        }
    }

    /// Whether the event moves a part of a row: then its successors have no room in a list without places.
    #[cycle(collecting)]
    pub fn can_move(&self, part: Part, row: &Row) -> bool
        requires is_in_place { InPlace self.now.diagram.now part }
        ensures decides_whether_there_is_a_successor { DecidesAny self.now (successors_of self.now part row.now) result }
    {
        let mut none = [];
        self.collect(part, row, &mut Ordered::over(&mut none))
            .is_err()
    }

    /// The same part of each of some rows.
    pub fn each(&self, part: Part, rows: &[Row], out: &mut Ordered<Row>) -> Result<(), Overflow>
        requires is_in_place { InPlace self.now.diagram.now part }
        ensures stays { Stays out.old out.new }
        ensures adds_the_successors_of_each { Collects self.now (RowsOfEach self.now part rows.now) out.old out.new result }
    {
        for row in rows {
            self.collect(part, row, out)?;
        }
        Ok(())
    }
}
