// A new book, what an open one takes, its closing, and the contexts of a closed one.
ghost use Rattle.std.specs.Prelude.{◌≡◌, not, []};
ghost use Rattle.terms.specs.Shorts.{held};
ghost use Rattle.terms.specs.declared.refusals.Refusal.TheVariants.{BookClosed, BookOpen};
ghost use Rattle.calculus.specs.Checks.{passes};
ghost use Rattle.calculus.specs.Events.{close, empty, enter_axiom, enter_inclusion, open_context};
ghost use Rattle.calculus.specs.Law.{Had};
ghost use Rattle.calculus.specs.Replies.{after, reply};

use crate::checks::passes;
use crate::clauses::{Clause, Phase};
use crate::entry::enter;
use crate::state::Book;
use calculus::Answer;
use forms::Concepts;
use models::{Axiom, ConceptAxiom};
use terms::{Literal, Reach, Refusal, Role, Short};

impl Book {
    /// A book that was asked nothing: open and empty.
    pub fn new() -> Book
        ensures value { result ≡ empty }
        ensures past { Had [] result }
    {
        let axioms = Short::new(Axiom::Under(Role::default(), Role::default()));
        let contexts = Short::new(Short::new(0));
        let clauses = Short::new(Clause {
            context: 0,
            head: Short::new(Literal::Concept(0)),
        });
        Book {
            phase: Phase::Open,
            axioms,
            reach: Reach::new(),
            contexts,
            clauses,
        }
    }

    // Refuses what only an open book takes.
    pub(crate) fn be_open(&self) -> Result<(), Refusal>
        ensures { result ≡ passes (not self.now.closed) BookClosed }
    {
        passes(!self.is_closed(), Refusal::BookClosed)
    }

    // Refuses what only a closed book takes.
    pub(crate) fn be_closed(&self) -> Result<(), Refusal>
        ensures { result ≡ passes self.now.closed BookOpen }
    {
        passes(self.is_closed(), Refusal::BookOpen)
    }

    // Enters a concept axiom in an open book.
    pub(crate) fn enter_axiom(&mut self, implied: ConceptAxiom) -> Result<Answer, Refusal>
        ensures answer { result ≡ reply self.old (enter_axiom (held implied.left) (held implied.right)) }
        ensures change { self.new ≡ after self.old (enter_axiom (held implied.left) (held implied.right)) }
    {
        self.be_open()?;
        enter(&mut self.axioms, Axiom::Implies(implied))
    }

    // Enters the inclusion of e under s in an open book.
    pub(crate) fn enter_inclusion(&mut self, e: Role, s: Role) -> Result<Answer, Refusal>
        ensures answer { result ≡ reply self.old (enter_inclusion e s) }
        ensures change { self.new ≡ after self.old (enter_inclusion e s) }
    {
        self.be_open()?;
        let entered = enter(&mut self.axioms, Axiom::Under(e, s))?;
        self.reach.include(e, s);
        Ok(entered)
    }

    // Closes an open book.
    pub(crate) fn close(&mut self) -> Result<Answer, Refusal>
        ensures answer { result ≡ reply self.old close }
        ensures change { self.new ≡ after self.old close }
    {
        self.be_open()?;
        self.phase = Phase::Closed;
        Ok(Answer::Closed)
    }

    // Opens a context of a closed book.
    pub(crate) fn open_context(&mut self, concepts: &Concepts) -> Result<Answer, Refusal>
        ensures answer { result ≡ reply self.old (open_context (held concepts.now.list)) }
        ensures change { self.new ≡ after self.old (open_context (held concepts.now.list)) }
    {
        self.be_closed()?;
        enter(&mut self.contexts, Short::from(*concepts))
    }
}
