ghost use Rattle.std.specs.Prelude.{◌≡◌, true, ◌↔◌, is_ok};
ghost use Rattle.fault.specs.Asking.{refusal, answer_or};
ghost use Rattle.event.specs.Forms.{form_asks, InForm, first_argument, second_argument};

use crate::event::Event;
use fault::fault::{Fault, Question};

impl Event {
    /// Whether it is in form: the label is at most 255, there are at most two arguments, and an unused one is 0.
    pub fn in_form(&self) -> Result<(), Fault>
        ensures refuses_at_the_first_wrong_field { result ≡ answer_or (refusal (form_asks self.now)) tt }
        ensures accepts_exactly_events_in_form { (is_ok result ≡ true) ↔ InForm self.now }
    {
        // a rule of the project: the place is the wrong field's number, from 0
        if self.label > 255 {
            return Err(Question::EventInForm.at(0));
        }
        if self.count > 2 {
            return Err(Question::EventInForm.at(1));
        }
        if self.count < 1 && self.first != 0 {
            return Err(Question::EventInForm.at(2));
        }
        if self.count < 2 && self.second != 0 {
            return Err(Question::EventInForm.at(3));
        }
        Ok(())
    }

    /// Its first argument, absent where it has none.
    // a method for each argument: each has a field of its own, and one method would have to choose between them
    pub fn first_argument(&self) -> Option<u16>
        ensures tells_the_first_argument { result ≡ first_argument self.now }
    {
        (self.count >= 1).then_some(self.first)
    }

    /// Its second argument, absent where it has fewer than two.
    pub fn second_argument(&self) -> Option<u16>
        ensures tells_the_second_argument { result ≡ second_argument self.now }
    {
        (self.count >= 2).then_some(self.second)
    }
}
