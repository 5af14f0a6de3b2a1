// The head that two premises resolve to.
ghost use Rattle.std.specs.Prelude.{◌≡◌, MatchResult};
ghost use Rattle.terms.specs.Lists.{removal, union};
ghost use Rattle.terms.specs.Literals.{literal_precedes};
ghost use Rattle.terms.specs.Shorts.{held};
ghost use Rattle.tour.specs.Heads.{HeadOrRefusal};

use terms::lists::{join, without};
use terms::literals::HEAD_LIMIT;
use terms::{Literal, Refusal, Short};

/// A rising list of literals.
pub type Head = Short<Literal, HEAD_LIMIT>;

/// The head of these literals, which are to be at most 12.
pub fn head_of(literals: &[Literal]) -> Result<Head, Refusal>
    ensures { HeadOrRefusal result literals.now }
{
    Short::from_slice(literals, Literal::Concept(0)).ok_or(Refusal::HeadTooLong {
        limit: HEAD_LIMIT,
    })
}

// The head without one literal, which is never refused.
fn head_without(head: &Head, literal: Literal) -> Result<Head, Refusal>
    ensures { MatchResult result (λ rest. held rest ≡ removal literal_precedes literal (held head.now)) (λ _. ⊥) }
{
    let mut left = [Literal::Concept(0); HEAD_LIMIT];
    let n = without(head.as_slice(), &literal, &mut left)?;
    head_of(&left[0..n])
}

// The join of two heads, which is to be at most 12 literals long.
fn join_heads(first: &Head, second: &Head) -> Result<Head, Refusal>
    ensures { HeadOrRefusal result (union literal_precedes (held first.now) (held second.now)) }
{
    let mut both = [Literal::Concept(0); 2 * HEAD_LIMIT];
    let n = join(first.as_slice(), second.as_slice(), &mut both)?;
    head_of(&both[0..n])
}

/// The head that two premises resolve to: each premise's head without its own literal, joined.
pub fn resolvent(first: &Head, own: Literal, second: &Head, other: Literal) -> Result<Head, Refusal>
    ensures { HeadOrRefusal result (union literal_precedes (removal literal_precedes own (held first.now)) (removal literal_precedes other (held second.now))) }
{
    let left = head_without(first, own)?;
    let right = head_without(second, other)?;
    join_heads(&left, &right)
}
