ghost use Rattle.std.specs.Prelude.{◌≡◌, ◌+◌, ◌≤◌, [], ◌∷◌, ◌++◌, true, cond, Some, None, OnOk, IfOk, codes, string_bytes};
ghost use Rattle.script.specs.Hosts.{kind_of};
ghost use Rattle.text.specs.Texts.{◌⌢◌};
ghost use Rattle.script.specs.Texts.{setting_line};
ghost use Rattle.script.specs.declared.line.Line.TheVariants as line;
ghost use Rattle.script.specs.declared.wrong.Wrong.TheVariants.{LateHost};
ghost use Rattle.logger.specs.Scripts.{wrong_limit, wrong_tally, wrong_call};
ghost use Rattle.logger.specs.Sessions.{so_far, settled, choice_of, Goes, Came};

use crate::making::make;
use crate::rows::say_rows;
use crate::session::Session;
use crate::stretch::Stretch;
use event::event::Event;
use fault::fault::Fault;
use script::host_kind::HostKind;
use script::hosting::Host;
use script::line::Line;
use script::outcome_line::SettingLine;
use script::wrong::Wrong;
use std::alloc::AllocError;
use std::mem;

/// Says what a setting is answered.
fn say_setting(call: Line, answer: Result<(), Fault>, said: &mut String) -> Result<(), AllocError>
    ensures { OnOk result (string_bytes said.new ≡ string_bytes said.old ++ (setting_line call answer ⌢ codes "\n")) }
{
    writeln!(said, "{}", SettingLine { call, answer })
}

impl Session<'_> {
    /// Makes the calls that wait, and says what they came to.
    pub(crate) fn finish(&mut self) -> Result<(), AllocError>
        ensures stands_as_with_them { OnOk result (Goes self.old [] self.new) }
        ensures has_no_opening_left { OnOk result (self.new.stretch.opening ≡ None) }
        ensures has_no_call_left { OnOk result (self.new.stretch.calls.items ≡ []) }
    {
        let stretch = mem::replace(&mut self.stretch, Stretch::new(self.heap));
        match &mut self.host {
            Host::Limits(limits) => make(
                self.heap,
                self.file,
                &self.ranges,
                &mut self.run,
                limits,
                &stretch,
                &mut self.said,
            ),
            Host::Tallies(tallies) => make(
                self.heap,
                self.file,
                &self.ranges,
                &mut self.run,
                tallies,
                &stretch,
                &mut self.said,
            ),
        }
    }

    /// Begins a call that cannot wait: those that wait are made before it.
    fn begin(&mut self) -> Result<(), AllocError>
        ensures stands_as_before { OnOk result (so_far self.new ≡ so_far self.old) }
        ensures has_the_same_file { OnOk result (self.new.file.now ≡ self.old.file.now) }
        ensures knows_that_a_call_was_read { OnOk result (choice_of self.new ≡ record { kind = kind_of self.old.host; begun = true }) }
        ensures has_no_opening_left { OnOk result (self.new.stretch.opening ≡ None) }
        ensures has_no_call_left { OnOk result (self.new.stretch.calls.items ≡ []) }
    {
        self.begun = true;
        self.finish()
    }

    /// The choice of a host, which stands before every other call.
    fn choose(&mut self, kind: HostKind) -> Result<Option<Wrong>, AllocError>
        ensures is_wrong_behind_another_call { IfOk result (λ wrong. wrong ≡ cond self.old.begun (Some LateHost) None) }
        ensures is_made_unless_wrong { IfOk result (λ wrong. Came self.old wrong (line.Host kind ∷ []) self.new) }
    {
        if self.begun {
            return Ok(Some(Wrong::LateHost));
        }
        self.finish()?;
        self.host = Host::of(kind);
        Ok(None)
    }

    /// A range.
    fn range(&mut self, ty: u16, first: u16, count: u16) -> Result<(), AllocError>
        ensures { OnOk result (Goes self.old (line.Range ty first count ∷ []) self.new) }
    {
        self.begin()?;
        let call = Line::Range { ty, first, count };
        say_setting(call, self.ranges.set(ty, first, count), &mut self.said)
    }

    /// A limit, which a host by tallies has not.
    fn limit(
        &mut self,
        guard: u16,
        operand: u16,
        comparison: u16,
        constant: u16,
    ) -> Result<Option<Wrong>, AllocError>
        ensures is_wrong_by_tallies { IfOk result (λ wrong. wrong ≡ wrong_limit (kind_of self.old.host)) }
        ensures is_made_unless_wrong { IfOk result (λ wrong. Came self.old wrong (line.Limit guard operand comparison constant ∷ []) self.new) }
    {
        self.begin()?;
        let call = Line::Limit {
            guard,
            operand,
            comparison,
            constant,
        };
        match self.host.set_limit(guard, operand, comparison, constant) {
            Err(wrong) => Ok(Some(wrong)),
            Ok(answer) => {
                say_setting(call, answer, &mut self.said)?;
                Ok(None)
            }
        }
    }

    /// A tally, which a host by limits has not.
    fn tally(&mut self, guard: u16, label: u16, bound: u16) -> Result<Option<Wrong>, AllocError>
        ensures is_wrong_by_limits { IfOk result (λ wrong. wrong ≡ wrong_tally (kind_of self.old.host)) }
        ensures is_made_unless_wrong { IfOk result (λ wrong. Came self.old wrong (line.Tally guard label bound ∷ []) self.new) }
    {
        self.begin()?;
        let call = Line::Tally {
            guard,
            label,
            bound,
        };
        match self.host.set_tally(guard, label, bound) {
            Err(wrong) => Ok(Some(wrong)),
            Ok(answer) => {
                say_setting(call, answer, &mut self.said)?;
                Ok(None)
            }
        }
    }

    /// An opening, which waits for the calls behind it.
    fn open(&mut self, ceiling: u16) -> Result<(), AllocError>
        ensures { OnOk result (Goes self.old (line.Open ceiling ∷ []) self.new) }
    {
        self.begin()?;
        self.stretch.opening = Some(ceiling);
        Ok(())
    }

    /// An offer, which waits for others.
    fn offer(&mut self, event: Event) -> Result<(), AllocError>
        ensures { OnOk result (Goes self.old (line.Offer event ∷ []) self.new) }
    {
        self.begun = true;
        self.stretch.offer(event)
    }

    /// Sees that so many places more are few enough together.
    fn make_room(&mut self, places: u16) -> Result<(), AllocError>
        ensures stands_as_before { OnOk result (Goes self.old [] self.new) }
        ensures has_room { OnOk result (self.new.stretch.places + places ≤ 65535) }
    {
        if self.stretch.is_full_for(places) {
            return self.finish();
        }
        Ok(())
    }

    /// A menu, which waits for others as far as their places are few enough together.
    fn menu(&mut self, places: u16) -> Result<(), AllocError>
        ensures { OnOk result (Goes self.old (line.Menu places ∷ []) self.new) }
    {
        self.make_room(places)?;
        self.begun = true;
        self.stretch.menu(places)
    }

    /// The states that are held.
    fn rows(&mut self) -> Result<(), AllocError>
        ensures { OnOk result (Goes self.old (line.Rows ∷ []) self.new) }
    {
        self.begin()?;
        say_rows(self.heap, &self.run, &mut self.said)
    }

    /// Any call; what is wrong with it, if anything is. One that is wrong says nothing.
    pub(crate) fn call(&mut self, call: Line) -> Result<Option<Wrong>, AllocError>
        ensures finds_what_is_wrong { IfOk result (λ wrong. wrong ≡ wrong_call (choice_of self.old) call) }
        ensures is_made_unless_wrong { IfOk result (λ wrong. Came self.old wrong (call ∷ []) self.new) }
    {
        match call {
            Line::Host { kind } => self.choose(kind),
            Line::Range { ty, first, count } => {
                self.range(ty, first, count)?;
                Ok(None)
            }
            Line::Limit {
                guard,
                operand,
                comparison,
                constant,
            } => self.limit(guard, operand, comparison, constant),
            Line::Tally {
                guard,
                label,
                bound,
            } => self.tally(guard, label, bound),
            Line::Open { ceiling } => {
                self.open(ceiling)?;
                Ok(None)
            }
            Line::Offer { event } => {
                self.offer(event)?;
                Ok(None)
            }
            Line::Menu { places } => {
                self.menu(places)?;
                Ok(None)
            }
            Line::Rows => {
                self.rows()?;
                Ok(None)
            }
        }
    }
}
