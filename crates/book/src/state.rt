// What a book holds, and the register that contracts see of it.
ghost use Rattle.std.specs.Prelude.{◌≡◌, ℕ, ◌<◌, map, slice_index};
ghost use Rattle.terms.specs.Reaching.{reach_test};
ghost use Rattle.terms.specs.Shorts.{held};
ghost use Rattle.terms.specs.Tables.{weight};
ghost use Rattle.models.specs.Charts.{sentence_of};
ghost use Rattle.calculus.specs.Register.{Register, inclusions};
ghost use Rattle.book.specs.Contents.{clause_of, is_closed};

use crate::clauses::{Clause, Phase};
use forms::limits::{AXIOM_LIMIT, CLAUSE_LIMIT, CONTEXT_LIMIT, LIST_LIMIT};
use models::Axiom;
use std::marker::Model;
use terms::{Reach, Short};

/// The axioms of a chart, the contexts opened and the clauses entered, each numbered from 0 in the order of entry.
#[derive(Drop)]
pub struct Book {
    pub(crate) phase: Phase,
    pub(crate) axioms: Short<Axiom, AXIOM_LIMIT>,
    pub(crate) reach: Reach,
    pub(crate) contexts: Short<Short<u8, LIST_LIMIT>, CONTEXT_LIMIT>,
    pub(crate) clauses: Short<Clause, CLAUSE_LIMIT>,
}

/// What contracts see of a book is the register that it holds. The table of reach shows the inclusions among its axioms.
impl Model for Book {
    ghost Value = { Register };

    ghost view = { λ b. record { closed = is_closed b.phase; axioms = map sentence_of (held b.axioms); contexts = map held (held b.contexts); clauses = map clause_of (held b.clauses) } };

    ghost invariant = { λ b. (E S : ℕ) → (E < 64) × (S < 64) → weight (slice_index b.reach.rows E) S ≡ reach_test (inclusions (map sentence_of (held b.axioms))) E S };
}
