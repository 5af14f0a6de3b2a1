// Literals, in the order of their positions.
ghost use Rattle.std.specs.Prelude.{◌≡◌, ◌<◌, nat_lt};
ghost use Rattle.terms.specs.Limits.{literal_positions};
ghost use Rattle.terms.specs.Literals.{InRange, literal_precedes, position};
ghost use Rattle.terms.specs.declared.literals.Literal.{Literal};
ghost use Rattle.terms.specs.declared.literals.Literal.TheVariants.{Concept};
ghost use Rattle.terms.specs.Positions.{literal_order};

use crate::order::Ordered;
use crate::roles::{ROLE_CODES, Role};
use std::fmt;

/// How many concepts there are, and so how many literals of one kind and one role.
pub const CONCEPTS: u32 = 256;

/// The most literals of a head.
pub const HEAD_LIMIT: usize = 12;

// Where the literals `some E A` and `all E A` begin.
const FIRST_EXISTS: u32 = CONCEPTS;

const FIRST_FORALL: u32 = FIRST_EXISTS + CONCEPTS * ROLE_CODES as u32;

/// A concept A; `some E A`, what has a filler of E in A; or `all E A`, what has all its fillers of E in A.
#[derive(Clone, Copy, Debug, PartialEq, Eq)]
pub enum Literal {
    Concept(u8),
    Exists(Role, u8),
    Forall(Role, u8),
}

impl Literal {
    /// Where the literal stands among all, from 0 to 33,023. No two literals have one position.
    pub fn position(&self) -> u32
        ensures value { result ≡ position self.now }
        ensures range { result < literal_positions }
        ensures in_range { InRange self.now }
        ensures apart { (other : Literal) → InRange other → result ≡ position other → self.now ≡ other }
    {
        match *self {
            Literal::Concept(a) => a as u32,
            Literal::Exists(e, a) => FIRST_EXISTS + CONCEPTS * (e.code() as u32) + a as u32,
            Literal::Forall(e, a) => FIRST_FORALL + CONCEPTS * (e.code() as u32) + a as u32,
        }
    }
}

impl Ordered for Literal {
    ghost precedes = { literal_precedes };

    ghost order = { literal_order };

    fn before(&self, other: &Literal) -> bool
        ensures value { result ≡ literal_precedes self.now other.now }
        ensures by_position { result ≡ nat_lt (position self.now) (position other.now) }
    {
        self.position() < other.position()
    }
}

impl Default for Literal {
    ghost is_default = { λ literal. literal ≡ Concept 0 };

    fn default() -> Literal {
        Literal::Concept(0)
    }
}

impl fmt::Display for Literal {
    fn fmt<W: fmt::Write>(&self, f: &mut fmt::Formatter<W>) -> fmt::Result {
        match *self {
            Literal::Concept(a) => write!(f, "{a}"),
            Literal::Exists(e, a) => write!(f, "(some {e} {a})"),
            Literal::Forall(e, a) => write!(f, "(all {e} {a})"),
        }
    }
}
