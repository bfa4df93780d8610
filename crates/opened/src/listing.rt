ghost use Rattle.std.specs.Prelude.{◌≡◌, ◌+◌, ◌≤◌, ◌||◌, List, [], length, nat_lt};
ghost use Rattle.std.specs.List.{list_any};
ghost use mathlib.Core.List.{Memᴰ};
ghost use Rattle.ordered.specs.Held.{held, room};
ghost use Rattle.event.specs.Forms.{event_rank};
ghost use Rattle.event.specs.declared.event.Event.{Event};
ghost use Rattle.rules.specs.Trees.{Guards};
ghost use Rattle.rules.specs.Candidates.{some_moves};
ghost use Rattle.rules.specs.Chains.{answers_after};
ghost use Rattle.diagram.specs.Plans.{nodes_of, arrows_in};
ghost use Rattle.answers.specs.Answering.{Agrees, Enough};
ghost use Rattle.law.specs.Counting.{ListsExactly};
ghost use Rattle.law.specs.Menus.{menu_events, menu_answer, written_over};
ghost use Rattle.opened.specs.Guarding.{is_guard, is_guarded};
ghost use Rattle.opened.specs.Listing.{PutIn, Keeps, HoldsFirst, Listed, CarriedAt, CarriedBelow, CarriedBy, MovesSome};
ghost use Rattle.opened.specs.Opens.{tree_of_opened};
ghost use Rattle.opened.specs.States.{states_in};

use crate::opened::Opened;
use crate::tables::Tables;
use answers::answers::{Answers, Entries};
use event::event::Event;
use fault::fault::{Fault, Question};
use host::host::GuardHost;
use notation::arrow::Arrow;
use notation::node::Node;
use ordered::list::Ordered;
use search::search::Search;

const BLANK: Event = Event {
    label: 0,
    count: 0,
    first: 0,
    second: 0,
};

/// Whether a node is a guard.
fn is_guard(node: &Node) -> bool
    ensures { result ≡ is_guard node.now }
{
    matches!(node, Node::Guard { .. })
}

/// Whether an arrow has this label and a guard.
fn is_guarded(label: u16, arrow: &Arrow) -> bool
    ensures { result ≡ is_guarded label arrow.now }
{
    arrow.label == label && arrow.guard.is_some()
}

impl<const N: usize, const A: usize> Tables<N, A> {
    /// Two tables, of which one has no answer yet.
    fn new() -> Tables<N, A> {
        Tables {
            willing: Entries::all(),
            asked: Entries::none(),
        }
    }
}

impl Opened {
    /// Whether the event of a table of answers moves some held state.
    fn moves_by(&self, answers: &Answers) -> bool
        ensures { (g : Guards) → Agrees self.now.diagram answers.now g → result ≡ some_moves (tree_of_opened self.now) g answers.now.event (states_in self.now.held) }
    {
        let search = Search {
            diagram: &self.diagram,
            answers,
        };
        self.held
            .rows()
            .iter()
            .any(|row| search.can_move(self.root, row))
    }

    /// Whether some node is a guard.
    fn has_guard(&self) -> bool
        ensures { result ≡ list_any is_guard (nodes_of self.now.diagram.plan) }
    {
        self.diagram.procedure().nodes().iter().any(is_guard)
    }

    /// Whether some arrow with this label has a guard.
    fn has_guarded_arrow(&self, label: u16) -> bool
        ensures { result ≡ list_any (is_guarded label) (arrows_in self.now.diagram.plan) }
    {
        self.diagram
            .procedure()
            .arrows()
            .iter()
            .any(|arrow| is_guarded(label, arrow))
    }

    /// Whether an event moves some held state. The host is asked only where the event would move one if every guard said yes, and a guard
    /// may have a say.
    fn moves<H: GuardHost, const N: usize, const A: usize>(
        &self,
        host: &H,
        event: Event,
        tables: &mut Tables<N, A>,
    ) -> bool
        requires are_enough { Enough N A self.now.diagram }
        ensures { result ≡ some_moves (tree_of_opened self.now) (answers_after (H.meaning host.now) [] event) event (states_in self.now.held) }
    {
        if !self.moves_by(&tables.willing.to(event)) {
            return false;
        }
        if !self.has_guard() && !self.has_guarded_arrow(event.label) {
            return true;
        }
        let answers = tables.asked.ask(&self.diagram, host, event);
        self.moves_by(&answers)
    }

    /// Puts in the events that an arrow carries at an outer position.
    fn put_carried_at(&self, arrow: usize, outer: usize, out: &mut Ordered<Event>)
        ensures puts_these { length (held out.old) + 17 ≤ room out.old → PutIn (CarriedAt self.now.diagram arrow outer 17) (held out.old) (held out.new) }
        ensures grows { length (held out.new) ≤ length (held out.old) + 17 }
        ensures keeps { Keeps out.old out.new }
        ensures keeps_its_lender { out.new.places.ghost_name ≡ out.old.places.ghost_name }
    {
        for inner in 0..self.diagram.inner_positions(arrow) {
            if let Some(event) = self.diagram.candidate(arrow, outer, inner) {
                out.insert(event);
            }
        }
    }

    /// Puts in the events that an arrow carries at any position.
    fn put_carried(&self, arrow: usize, out: &mut Ordered<Event>)
        ensures puts_these { held out.old ≡ [] → 289 ≤ room out.old → ListsExactly event_rank (CarriedBelow self.now.diagram arrow 17) (held out.new) }
        ensures keeps { Keeps out.old out.new }
        ensures keeps_its_lender { out.new.places.ghost_name ≡ out.old.places.ghost_name }
    {
        for outer in 0..self.diagram.outer_positions(arrow) {
            self.put_carried_at(arrow, outer, out);
        }
    }

    /// Lists those events that move a held state. One that is listed already is not asked for again. The answer says whether there is no room for some.
    fn list_moving<H: GuardHost, const N: usize, const A: usize>(
        &self,
        host: &H,
        events: &[Event],
        tables: &mut Tables<N, A>,
        out: &mut Ordered<Event>,
    ) -> bool
        requires are_enough { Enough N A self.now.diagram }
        ensures lists_those_that_move { (others : List Event) → HoldsFirst others out.old
            → Listed (λ e. Memᴰ e events.now × MovesSome self.now (H.meaning host.now) e) others out.new (nat_lt (room out.old) (length others) || result) }
        ensures keeps { Keeps out.old out.new }
        ensures keeps_its_lender { out.new.places.ghost_name ≡ out.old.places.ghost_name }
    {
        let mut short = false;
        for event in events {
            if !out.has(event) && self.moves(host, *event, tables) && out.insert(*event) {
                short = true;
            }
        }
        short
    }

    /// Lists the events of one arrow that move a held state. Those that it carries more than once are asked for once.
    fn list_carried<H: GuardHost, const N: usize, const A: usize>(
        &self,
        host: &H,
        arrow: usize,
        tables: &mut Tables<N, A>,
        out: &mut Ordered<Event>,
    ) -> bool
        requires are_enough { Enough N A self.now.diagram }
        ensures lists_those_that_move { (others : List Event) → HoldsFirst others out.old
            → Listed (λ e. CarriedBelow self.now.diagram arrow 17 e × MovesSome self.now (H.meaning host.now) e) others out.new (nat_lt (room out.old) (length others) || result) }
        ensures keeps { Keeps out.old out.new }
        ensures keeps_its_lender { out.new.places.ghost_name ≡ out.old.places.ghost_name }
    {
        let mut places = [BLANK; 289];
        let mut events = Ordered::over(&mut places);
        self.put_carried(arrow, &mut events);
        self.list_moving(host, events.as_slice(), tables, out)
    }

    /// Lists the events of all arrows that move a held state.
    fn list_with<H: GuardHost, const N: usize, const A: usize>(
        &self,
        host: &H,
        tables: &mut Tables<N, A>,
        out: &mut Ordered<Event>,
    ) -> bool
        requires are_enough { Enough N A self.now.diagram }
        ensures lists_those_that_move { held out.old ≡ []
            → Listed (λ e. CarriedBy self.now.diagram (length (arrows_in self.now.diagram.plan)) e × MovesSome self.now (H.meaning host.now) e) [] out.new result }
        ensures keeps { Keeps out.old out.new }
        ensures keeps_its_lender { out.new.places.ghost_name ≡ out.old.places.ghost_name }
    {
        let mut short = false;
        for arrow in 0..self.diagram.procedure().arrow_count() {
            if self.list_carried(host, arrow, tables, out) {
                short = true;
            }
        }
        short
    }

    /// The same, with tables that are large enough for any diagram.
    // out of line, so that a small diagram's menu takes no place on the stack for them
    #[inline(never)]
    fn list_large<H: GuardHost>(&self, host: &H, out: &mut Ordered<Event>) -> bool
        ensures lists_those_that_move { held out.old ≡ []
            → Listed (λ e. CarriedBy self.now.diagram (length (arrows_in self.now.diagram.plan)) e × MovesSome self.now (H.meaning host.now) e) [] out.new result }
        ensures keeps { Keeps out.old out.new }
        ensures keeps_its_lender { out.new.places.ghost_name ≡ out.old.places.ghost_name }
    {
        self.list_with(host, &mut Tables::<64, 256>::new(), out)
    }

    /// The same, with tables that are large enough for this one.
    fn list<H: GuardHost>(&self, host: &H, out: &mut Ordered<Event>) -> bool
        ensures lists_those_that_move { held out.old ≡ []
            → Listed (λ e. CarriedBy self.now.diagram (length (arrows_in self.now.diagram.plan)) e × MovesSome self.now (H.meaning host.now) e) [] out.new result }
        ensures keeps { Keeps out.old out.new }
        ensures keeps_its_lender { out.new.places.ghost_name ≡ out.old.places.ghost_name }
    {
        if !self.is_small() {
            return self.list_large(host, out);
        }
        self.list_with(host, &mut Tables::<8, 24>::new(), out)
    }

    /// Writes the menu into the first places of a list. Where there are too few, question 18 is answered no, and its first events are written.
    pub fn menu<H: GuardHost>(&self, host: &H, list: &mut [Event]) -> Result<usize, Fault>
        ensures answers_as_the_question_says { result ≡ menu_answer (length list.old) (menu_events (tree_of_opened self.now) (states_in self.now.held) (H.meaning host.now)) }
        ensures writes_the_menu { list.new ≡ written_over (menu_events (tree_of_opened self.now) (states_in self.now.held) (H.meaning host.now)) list.old }
        ensures has_at_most_65536_events { length (menu_events (tree_of_opened self.now) (states_in self.now.held) (H.meaning host.now)) ≤ 65536 }
    {
        let places = list.len();
        let mut out = Ordered::over(list);
        if self.list(host, &mut out) {
            return Err(Question::MenuWithinList.at(places));
        }
        Ok(out.len())
    }
}
