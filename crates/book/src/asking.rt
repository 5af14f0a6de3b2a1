// The questions whether the clauses entered show a subsumption, and whether a sample refutes it.
ghost use Rattle.std.specs.Prelude.{◌≡◌, map};
ghost use Rattle.terms.specs.Lists.{contained, member};
ghost use Rattle.terms.specs.Literals.{literal_precedes};
ghost use Rattle.terms.specs.Shorts.{held};
ghost use Rattle.terms.specs.declared.literals.Literal.TheVariants.{Concept};
ghost use Rattle.book.specs.Contents.{clause_of};
ghost use Rattle.book.specs.Offers.{ask_call, refute_call};
ghost use Rattle.calculus.specs.Replies.{covering, lowest_clause, reply};

use crate::clauses::Clause;
use crate::state::Book;
use calculus::Answer;
use forms::Subsumption;
use models::Sample;
use models::judge::{judge, lowest_contradiction};
use terms::lists::{has, is_within};
use terms::{Literal, Refusal};

// Whether the literal is one of these concepts.
fn is_concept_of(literal: Literal, concepts: &[u8]) -> bool
    ensures { result ≡ member literal_precedes literal (map Concept concepts.now) }
{
    matches!(literal, Literal::Concept(a) if has(concepts, &a))
}

// Whether each literal is one of these concepts.
fn are_concepts_of(literals: &[Literal], concepts: &[u8]) -> bool
    ensures { result ≡ contained literal_precedes literals.now (map Concept concepts.now) }
{
    literals
        .iter()
        .all(|literal| is_concept_of(*literal, concepts))
}

impl Book {
    // Whether the clause strengthens the subsumption.
    fn covers(&self, clause: &Clause, asked: &Subsumption) -> bool
        ensures { result ≡ covering self.now (held asked.now.left.list) (held asked.now.right.list) (clause_of clause.now) }
    {
        let concepts = self.contexts.get(clause.context as usize);
        concepts.is_some_and(|core| is_within(core.as_slice(), asked.left.as_slice()))
            && are_concepts_of(clause.head.as_slice(), asked.right.as_slice())
    }

    // The number of the lowest clause that strengthens the subsumption.
    fn lowest_clause(&self, asked: &Subsumption) -> Option<u16>
        ensures { result ≡ lowest_clause self.now (held asked.now.left.list) (held asked.now.right.list) 0 self.now.clauses }
    {
        let clauses = self.clauses.as_slice();
        let n = clauses
            .iter()
            .position(|clause| self.covers(clause, asked))?;
        Some(n as u16)
    }

    // Which clause of a closed book shows the subsumption, if any.
    pub(crate) fn ask(&self, asked: &Subsumption) -> Result<Answer, Refusal>
        ensures { result ≡ reply self.now (ask_call asked.now) }
    {
        self.be_closed()?;
        let lowest = self.lowest_clause(asked);
        Ok(lowest.map_or(Answer::Unshown, Answer::Shown))
    }

    // Which element of the sample refutes the subsumption in a closed book.
    pub(crate) fn refute<S: Sample>(
        &self,
        asked: &Subsumption,
        sample: &S,
    ) -> Result<Answer, Refusal>
        ensures { result ≡ reply self.now (refute_call asked.now (S.meaning sample.now)) }
    {
        self.be_closed()?;
        judge(self.axioms.as_slice(), sample)?;
        lowest_contradiction(asked.left.as_slice(), asked.right.as_slice(), sample)
            .map(Answer::Refuted)
            .ok_or(Refusal::NoneContradicts)
    }
}
