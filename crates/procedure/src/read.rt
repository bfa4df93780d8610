ghost use Rattle.std.specs.Prelude.{◌≡◌, Some, None, MatchResult};
ghost use Rattle.fault.specs.Asking.{refusal};
ghost use Rattle.procedure.specs.Drawings.{nothing_drawn};
ghost use Rattle.procedure.specs.Procedures.{drawing, BecomesWhole, RefusedExactly, AcceptedExactly, LaidOutExactly};
ghost use Rattle.procedure.specs.Reading.{records, drawn_by, asks, reading, answer_of, left_by};

use crate::draft::Draft;
use crate::procedure::Procedure;
use fault::fault::Fault;

impl Procedure {
    /// A procedure that holds nothing.
    pub fn new() -> Procedure
        ensures holds_nothing { drawing result ≡ nothing_drawn }
    {
        let draft = Draft::empty();
        Procedure {
            nodes: draft.nodes,
            arrows: draft.arrows,
        }
    }
}

/// Questions 8 to 10, of a draft, which is lent: one that is given away is written once more, 20 KB.
impl TryFrom<&Draft> for Procedure {
    type Error = Fault;

    ghost try_from_gives = { λ draft. BecomesWhole draft.now };

    fn try_from(draft: &Draft) -> Result<Procedure, Fault> {
        draft.whole()?;
        Ok(Procedure {
            nodes: draft.nodes,
            arrows: draft.arrows,
        })
    }
}

/// All questions of a file, and what it draws.
fn drafted(file: &[u8]) -> Result<Procedure, Fault>
    ensures { MatchResult result
        (λ p. (drawing p ≡ drawn_by file.now (records file.now)) × (refusal (asks file.now) ≡ None))
        (λ f. refusal (asks file.now) ≡ Some f) }
{
    let mut draft = Draft::empty();
    draft.fill(file)?;
    Procedure::try_from(&draft)
}

/// What a file gives: a procedure, empty where the file is refused, and the answer.
// `read` promises the same five: proved here of two values, they leave nothing to prove there, where what was held before is about
fn given(file: &[u8]) -> (Procedure, Result<usize, Fault>)
    ensures answer { result.1 ≡ answer_of (reading file.now) }
    ensures contents { drawing result.0 ≡ left_by (reading file.now) }
    ensures refused { RefusedExactly file.now result.1 }
    ensures accepted { AcceptedExactly file.now result.1 }
    ensures laid_out { LaidOutExactly file.now result.1 (drawing result.0) }
{
    match drafted(file) {
        Ok(procedure) => {
            let nodes = procedure.node_count();
            (procedure, Ok(nodes))
        }
        Err(fault) => (Procedure::new(), Err(fault)),
    }
}

impl Procedure {
    /// Reads a file in place of what the procedure held, and answers the number of nodes. A refusal leaves it empty.
    pub fn read(&mut self, file: &[u8]) -> Result<usize, Fault>
        ensures answers_as_the_questions_say { result ≡ answer_of (reading file.now) }
        ensures leaves_what_the_records_draw_or_nothing { drawing self.new ≡ left_by (reading file.now) }
        ensures refuses_exactly_the_first_no { RefusedExactly file.now result }
        ensures accepts_exactly_all_yes { AcceptedExactly file.now result }
        ensures gives_exactly_what_is_laid_out { LaidOutExactly file.now result (drawing self.new) }
    {
        let (procedure, answer) = given(file);
        *self = procedure;
        answer
    }
}
