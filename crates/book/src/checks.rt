// What the steps check, one thing to a function, in the order of the refusals.
ghost use Rattle.std.specs.Prelude.{◌≡◌};
ghost use Rattle.std.specs.List.{slice_get};
ghost use Rattle.terms.specs.Shorts.{held};
ghost use Rattle.terms.specs.declared.refusals.Refusal.TheVariants.{ClauseNotEntered, NoConceptAxiom};
ghost use Rattle.calculus.specs.Checks.{and_then, claimed, core_of, passes, premise_head, ready, required, sides_of};
ghost use Rattle.book.specs.Contents.{clause_of};
ghost use Rattle.book.specs.Views.{both_sides, seen};

use crate::clauses::Clause;
use crate::rows::first_difference;
use crate::state::Book;
use forms::limits::{CLAUSE_LIMIT, HEAD_LIMIT, LIST_LIMIT};
use models::{Axiom, ConceptAxiom};
use terms::lists::has;
use terms::{Literal, Refusal, Short};

/// The literals of scratch that a step is to be lent: the most that one gathers. A pred step can gather 11 from a head of 12 that has
/// `some e a`, which goes, 11 from each of 8 sides, whose own literal goes, and one for each of the 12 in a far head: 11 + 8 * 11 + 12 = 111. A
/// hyper step can gather the 8 right literals of its axiom, and 11 from each of 8 premises, which is 96. A core step gathers none.
pub const SCRATCH_NEEDED: usize = (HEAD_LIMIT - 1) * (1 + LIST_LIMIT) + HEAD_LIMIT;

impl Book {
    // Whether a step can be looked at: the book is closed, the scratch is long enough, and a place for a clause is free.
    pub(crate) fn ready(&self, scratch: usize) -> Result<(), Refusal>
        ensures { result ≡ ready self.now scratch }
    {
        self.be_closed()?;
        let short = Refusal::MemoryTooShort {
            needed: SCRATCH_NEEDED,
        };
        passes(scratch >= SCRATCH_NEEDED, short)?;
        let used = self.clauses.len();
        let full = Refusal::NoPlaceFree {
            limit: CLAUSE_LIMIT,
        };
        passes(used < CLAUSE_LIMIT, full)
    }

    // The core of the context v, or this refusal where v was not opened.
    pub(crate) fn core_or(
        &self,
        v: usize,
        missing: Refusal,
    ) -> Result<Short<u8, LIST_LIMIT>, Refusal>
        ensures { seen held result ≡ required missing (slice_get self.now.contexts v) }
    {
        self.contexts.get(v).ok_or(missing)
    }

    // The core of the context v.
    pub(crate) fn core_of(&self, v: usize) -> Result<Short<u8, LIST_LIMIT>, Refusal>
        ensures { seen held result ≡ core_of self.now v }
    {
        self.core_or(v, Refusal::ContextNotOpened { context: v })
    }

    // The core of the context v, for a step that can be looked at.
    pub(crate) fn ready_core(
        &self,
        v: usize,
        scratch: usize,
    ) -> Result<Short<u8, LIST_LIMIT>, Refusal>
        ensures { seen held result ≡ and_then (ready self.now scratch) (λ _. core_of self.now v) }
    {
        self.ready(scratch)?;
        self.core_of(v)
    }

    // Axiom number x, which is to be a concept axiom.
    pub(crate) fn concept_axiom(&self, x: usize) -> Result<ConceptAxiom, Refusal>
        ensures { seen both_sides result ≡ sides_of (NoConceptAxiom x) (slice_get self.now.axioms x) }
    {
        match self.axioms.get(x) {
            Some(Axiom::Implies(axiom)) => Ok(axiom),
            _ => Err(Refusal::NoConceptAxiom { axiom: x }),
        }
    }

    // Clause number n, which is premise i.
    pub(crate) fn clause_at(&self, i: usize, n: usize) -> Result<Clause, Refusal>
        ensures { seen clause_of result ≡ required (ClauseNotEntered i n) (slice_get self.now.clauses n) }
    {
        self.clauses.get(n).ok_or(Refusal::ClauseNotEntered {
            premise: i,
            clause: n,
        })
    }

    // The head of premise i, which is to be a clause of v that has `own`.
    pub(crate) fn premise(
        &self,
        i: usize,
        v: usize,
        n: usize,
        own: Literal,
    ) -> Result<Short<Literal, HEAD_LIMIT>, Refusal>
        ensures { seen held result ≡ premise_head self.now.clauses i v n own }
    {
        let clause = self.clause_at(i, n)?;
        let context = clause.context as usize;
        let other = Refusal::OtherContext {
            premise: i,
            context,
        };
        passes(context == v, other)?;
        let absent = Refusal::LiteralAbsent { premise: i };
        passes(has(clause.head.as_slice(), &own), absent)?;
        Ok(clause.head)
    }
}

// Nothing where the test passes, or this refusal.
pub(crate) fn passes(test: bool, otherwise: Refusal) -> Result<(), Refusal>
    ensures { result ≡ passes test otherwise }
{
    if test { Ok(()) } else { Err(otherwise) }
}

// The row is short enough for a head, and it is the claim.
pub(crate) fn is_claimed(row: &[Literal], claim: &[Literal]) -> Result<(), Refusal>
    ensures { result ≡ claimed row.now claim.now }
{
    let long = Refusal::HeadTooLong { limit: HEAD_LIMIT };
    passes(row.len() <= HEAD_LIMIT, long)?;
    first_difference(row, claim).map_or(Ok(()), |index| Err(Refusal::ClaimDiffers { index }))
}
