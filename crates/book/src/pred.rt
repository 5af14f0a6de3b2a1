// The pred step: from `some e a` in a clause, through its sides, to a clause of a far context, and back.
ghost use Rattle.std.specs.Prelude.{◌≡◌, List, []};
ghost use Rattle.terms.specs.Shorts.{held};
ghost use Rattle.terms.specs.declared.literals.Literal.{Literal};
ghost use Rattle.calculus.specs.Checks.{back_brings, back_test, core_named, far_row, near_row, reaches_test, same_core, side_brings, side_head, side_test, walked};
ghost use Rattle.book.specs.Contents.{clause_of};
ghost use Rattle.book.specs.Offers.{pred_call};
ghost use Rattle.book.specs.Rows.{Keeps, RowIn};
ghost use Rattle.book.specs.Views.{seen};

use crate::checks::{is_claimed, passes};
use crate::clauses::Clause;
use crate::rows::Row;
use crate::state::Book;
use crate::step::Step;
use forms::limits::{HEAD_LIMIT, LIST_LIMIT};
use forms::{PredStep, Side};
use terms::lists::is_within;
use terms::{Literal, Refusal, Role, Short};

// The most concepts that a pred step names: its own, and one for each side.
const NAME_LIMIT: usize = LIST_LIMIT + 1;

impl Book {
    fn reaches(&self, e: Role, s: Role) -> bool
        ensures { result ≡ reaches_test self.now e.code s.code }
    {
        self.reach.reaches(e, s)
    }

    // The head of a side's clause, which is premise i.
    fn side_head(
        &self,
        i: usize,
        step: &PredStep,
        side: Side,
    ) -> Result<Short<Literal, HEAD_LIMIT>, Refusal>
        ensures { seen held result ≡ side_head self.now i step.now.context.number step.now.role.code side }
    {
        let v = step.context.index();
        let head = self.premise(i, v, side.clause as usize, side.literal())?;
        let reached = self.reaches(step.role, side.role);
        passes(reached, Refusal::RoleNotReached { premise: i })?;
        Ok(head)
    }

    // The concept that literal i of the far head brings back.
    fn brought_back(&self, e: Role, i: usize, literal: Literal) -> Result<u8, Refusal>
        ensures { result ≡ back_test self.now e.code i literal }
    {
        match literal {
            Literal::Forall(t, c) if self.reaches(e.mirror(), t) => Ok(c),
            _ => Err(Refusal::LiteralUnfit { index: i }),
        }
    }

    // Puts what each side has besides its own literal into the row.
    fn gather_sides(&self, step: &PredStep, row: &mut Row<'_>) -> Result<(), Refusal>
        ensures { (start : List Literal) → Keeps row.old start → RowIn row.new result (walked (side_test self.now step.now.context.number step.now.role.code) side_brings 0 (held step.now.sides.list) start) }
    {
        let sides = step.sides.as_slice();
        for (i, side) in sides.iter().enumerate() {
            let head = self.side_head(i + 1, step, *side)?;
            row.put_all(head.as_slice(), Some(side.literal()));
        }
        Ok(())
    }

    // Puts the concept that each literal of the far head brings back into the row.
    fn gather_back(&self, e: Role, far: &[Literal], row: &mut Row<'_>) -> Result<(), Refusal>
        ensures { (start : List Literal) → Keeps row.old start → RowIn row.new result (walked (back_test self.now e.code) back_brings 0 far.now start) }
    {
        for (i, literal) in far.iter().enumerate() {
            row.put(Literal::Concept(self.brought_back(e, i, *literal)?));
        }
        Ok(())
    }
}

impl Book {
    // Puts what the clauses of the step's context give into the empty row.
    fn near_row(&self, step: &PredStep, row: &mut Row<'_>) -> Result<(), Refusal>
        ensures { Keeps row.old [] → RowIn row.new result (near_row self.now step.now.context.number step.now.first.number step.now.role step.now.concept (held step.now.sides.list)) }
    {
        let own = Literal::Exists(step.role, step.concept);
        let head = self.premise(0, step.context.index(), step.first.index(), own)?;
        row.put_all(head.as_slice(), Some(own));
        self.gather_sides(step, row)
    }

    // Puts what the far clause brings back into the row.
    fn far_row(&self, step: &PredStep, far: &Clause, row: &mut Row<'_>) -> Result<(), Refusal>
        ensures { (start : List Literal) → Keeps row.old start → RowIn row.new result (far_row self.now step.now.role.code step.now.concept (held step.now.sides.list) (clause_of far.now) start) }
    {
        let u = far.context as usize;
        let concepts = self.core_or(u, Refusal::CoreDiffers { context: u })?;
        is_core(u, concepts.as_slice(), names_of_core(step).as_slice())?;
        self.gather_back(step.role, far.head.as_slice(), row)
    }
}

impl Step for PredStep {
    ghost call = { pred_call };

    fn check(&self, book: &Book, scratch: &mut [Literal]) -> Result<(), Refusal> {
        book.ready_core(self.context.index(), scratch.len())?;
        let mut row = Row::new(scratch);
        book.near_row(self, &mut row)?;
        let sides = self.sides.as_slice().len();
        let far = book.clause_at(sides + 1, self.far.index())?;
        book.far_row(self, &far, &mut row)?;
        is_claimed(row.as_slice(), self.claim.as_slice())
    }

    // The claim.
    fn clause(&self) -> Clause {
        Clause::new(self.context, self.claim.into())
    }
}

// The concepts that the core of the far context is to be.
fn names_of_core(step: &PredStep) -> Short<u8, NAME_LIMIT>
    ensures { held result ≡ core_named step.now.concept (held step.now.sides.list) }
{
    let mut names = Short::new(0);
    let _ = names.push(step.concept);
    let sides = step.sides.as_slice();
    for side in sides {
        let _ = names.push(side.concept);
    }
    names
}

// The core of u is the set of these concepts.
fn is_core(u: usize, concepts: &[u8], names: &[u8]) -> Result<(), Refusal>
    ensures { result ≡ same_core u concepts.now names.now }
{
    let same = is_within(concepts, names) && is_within(names, concepts);
    passes(same, Refusal::CoreDiffers { context: u })
}
