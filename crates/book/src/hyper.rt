// The hyper step: from an axiom, and a premise for each of its left concepts.
ghost use Rattle.std.specs.Prelude.{◌≡◌, List, []};
ghost use Rattle.terms.specs.Shorts.{held};
ghost use Rattle.terms.specs.declared.literals.Literal.{Literal};
ghost use Rattle.calculus.specs.Checks.{gathered, hyper_row};
ghost use Rattle.book.specs.Offers.{hyper_call, premise_numbers};
ghost use Rattle.book.specs.Rows.{Keeps, RowIn};

use crate::checks::{is_claimed, passes};
use crate::clauses::Clause;
use crate::rows::Row;
use crate::state::Book;
use crate::step::Step;
use forms::HyperStep;
use models::ConceptAxiom;
use terms::{Literal, Refusal};

impl Book {
    // Puts what each premise has besides its own concept into the row.
    fn gather(&self, step: &HyperStep, left: &[u8], row: &mut Row<'_>) -> Result<(), Refusal>
        ensures { (start : List Literal) → Keeps row.old start → RowIn row.new result (gathered self.now.clauses step.now.context.number left.now (premise_numbers step.now) start) }
    {
        let v = step.context.index();
        let premises = step.premises.as_slice();
        for (i, (concept, premise)) in left.iter().zip(premises).enumerate() {
            let own = Literal::Concept(*concept);
            let head = self.premise(i, v, premise.index(), own)?;
            row.put_all(head.as_slice(), Some(own));
        }
        Ok(())
    }

    // Puts the right literals, and what each premise has besides its own concept, into the empty row.
    fn hyper_row(
        &self,
        step: &HyperStep,
        implied: &ConceptAxiom,
        row: &mut Row<'_>,
    ) -> Result<(), Refusal>
        ensures { Keeps row.old [] → RowIn row.new result (hyper_row self.now step.now.context.number (held implied.now.left) (premise_numbers step.now) (held implied.now.right)) }
    {
        let left = implied.left();
        let given = step.premises.as_slice().len();
        let needed = left.len();
        passes(
            given == needed,
            Refusal::PremisesMiscounted { given, needed },
        )?;
        row.put_all(implied.right(), None);
        self.gather(step, left, row)
    }
}

impl Step for HyperStep {
    ghost call = { hyper_call };

    fn check(&self, book: &Book, scratch: &mut [Literal]) -> Result<(), Refusal> {
        book.ready_core(self.context.index(), scratch.len())?;
        let implied = book.concept_axiom(self.axiom.index())?;
        let mut row = Row::new(scratch);
        book.hyper_row(self, &implied, &mut row)?;
        is_claimed(row.as_slice(), self.claim.as_slice())
    }

    // The claim.
    fn clause(&self) -> Clause {
        Clause::new(self.context, self.claim.into())
    }
}
