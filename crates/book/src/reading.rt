// What a host can read of a book.
ghost use Rattle.std.specs.Prelude.{◌≡◌, ◌≤◌, map, length};
ghost use Rattle.terms.specs.Shorts.{held};
ghost use Rattle.models.specs.Charts.{sentence_of};
ghost use Rattle.forms.specs.Limits.{axiom_limit, clause_limit, context_limit};
ghost use Rattle.book.specs.Contents.{clause_of};

use crate::clauses::{Clause, Phase};
use crate::state::Book;
use forms::limits::LIST_LIMIT;
use models::Axiom;
use terms::Short;

impl Book {
    /// Whether the book is closed, and so takes contexts, steps and questions.
    pub fn is_closed(&self) -> bool
        ensures { result ≡ self.now.closed }
    {
        matches!(self.phase, Phase::Closed)
    }

    /// The axioms, in the order of their numbers.
    pub fn axioms(&self) -> &[Axiom]
        ensures value { map sentence_of result.now ≡ self.now.axioms }
        ensures few { length result.now ≤ axiom_limit }
    {
        self.axioms.as_slice()
    }

    /// The cores of the contexts, in the order of their numbers.
    pub fn cores(&self) -> &[Short<u8, LIST_LIMIT>]
        ensures value { map held result.now ≡ self.now.contexts }
        ensures few { length result.now ≤ context_limit }
    {
        self.contexts.as_slice()
    }

    /// The clauses, in the order of their numbers.
    pub fn clauses(&self) -> &[Clause]
        ensures value { map clause_of result.now ≡ self.now.clauses }
        ensures few { length result.now ≤ clause_limit }
    {
        self.clauses.as_slice()
    }
}
