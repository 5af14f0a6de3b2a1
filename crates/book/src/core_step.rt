// The core step: a concept of a context's core.
ghost use Rattle.std.specs.Prelude.{◌≡◌, [], ◌∷◌};
ghost use Rattle.terms.specs.Shorts.{held};
ghost use Rattle.book.specs.Offers.{core_call};

use crate::checks::passes;
use crate::clauses::Clause;
use crate::state::Book;
use crate::step::Step;
use forms::CoreStep;
use forms::limits::HEAD_LIMIT;
use terms::lists::has;
use terms::{Literal, Refusal, Short};

impl Step for CoreStep {
    ghost call = { core_call };

    fn check(&self, book: &Book, scratch: &mut [Literal]) -> Result<(), Refusal> {
        let v = self.context.index();
        let concepts = book.ready_core(v, scratch.len())?;
        let within = has(concepts.as_slice(), &self.concept);
        passes(within, Refusal::CoreDiffers { context: v })
    }

    // The clause whose head is the concept alone.
    fn clause(&self) -> Clause {
        Clause::new(self.context, alone(Literal::Concept(self.concept)))
    }
}

// The head of one literal.
fn alone(literal: Literal) -> Short<Literal, HEAD_LIMIT>
    ensures { held result ≡ literal ∷ [] }
{
    let mut head = Short::new(literal);
    let _ = head.push(literal);
    head
}
