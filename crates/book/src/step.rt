// What the three steps share: a step is checked, the scratch is cleared, and the step's clause is entered if it passed.
ghost use Rattle.std.specs.Prelude.{◌≡◌, ℕ, ◌<◌, length, replicate, Ok};
ghost use Rattle.terms.specs.declared.literals.Literal.TheVariants.{Concept};
ghost use Rattle.forms.specs.Limits.{clause_limit};
ghost use Rattle.calculus.specs.Events.{Event};
ghost use Rattle.calculus.specs.Replies.{after, check, reply};
ghost use Rattle.book.specs.Offers.{EntersClause};

use crate::clauses::Clause;
use crate::entry::enter;
use crate::state::Book;
use calculus::Answer;
use terms::{Literal, Refusal};

// A step that a form asks for.
pub(crate) trait Step {
    ghost call: { Self → ℕ → Event };

    // Whether the book takes the step. What it leaves in the scratch is for the caller to clear.
    fn check(&self, book: &Book, scratch: &mut [Literal]) -> Result<(), Refusal>
        ensures value { result ≡ check book.now (call self.now (length scratch.old)) }
        ensures room { result ≡ Ok tt → length book.now.clauses < clause_limit };

    // The clause that the step enters.
    fn clause(&self) -> Clause
        ensures { EntersClause (call self.now) result };
}

impl Book {
    // Enters the clause of a step that passes; else the book stays as it was. Clears the scratch in any case.
    pub(crate) fn step<S: Step>(
        &mut self,
        step: &S,
        scratch: &mut [Literal],
    ) -> Result<Answer, Refusal>
        ensures answer { result ≡ reply self.old (S.call step.now (length scratch.old)) }
        ensures change { self.new ≡ after self.old (S.call step.now (length scratch.old)) }
        ensures cleared { scratch.new ≡ replicate (length scratch.old) (Concept 0) }
    {
        let checked = step.check(self, scratch);
        scratch.fill(Literal::Concept(0));
        checked?;
        enter(&mut self.clauses, step.clause())
    }
}
