ghost use Rattle.std.specs.Prelude.{◌≡◌, ℕ, ◌<◌, Bool};
ghost use Rattle.fault.specs.Asking.{refusal, answer_or, asked_of_each};

use fault::fault::{Fault, Question};

/// Asks a question at 0, 1 and so on below `count`, up to the first no.
pub(crate) fn ask_each<F: Fn(usize) -> bool>(
    question: Question,
    count: usize,
    yes: F,
) -> Result<(), Fault>
    requires { (k : ℕ) → k < count → F.pre yes k }
    ensures { (g : ℕ → Bool) → ((k : ℕ) (b : Bool) → k < count → F.post yes k b → b ≡ g k) → result ≡ answer_or (refusal (asked_of_each question count g)) tt }
{
    // a `for`: `find` would give the place alone, and the answer would have to be matched from it
    for place in 0..count {
        if !yes(place) {
            return Err(question.at(place));
        }
    }
    Ok(())
}
