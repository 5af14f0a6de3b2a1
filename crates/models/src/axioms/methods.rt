ghost use Rattle.std.specs.Prelude.{◌≡◌, ◌≤◌, length, Some, None, MatchResult};
ghost use Rattle.terms.specs.Shorts.{held};
ghost use Rattle.models.specs.Charts.{sides_refusal};

use super::ConceptAxiom;
use terms::bounded::rising::rising_list;
use terms::{Literal, Refusal};

impl ConceptAxiom {
    /// The axiom of these sides, which are to rise and to be at most 8 each. The left side is looked through first.
    pub fn new(left: &[u8], right: &[Literal]) -> Result<ConceptAxiom, Refusal>
        ensures { MatchResult result (λ a. (held a.left ≡ left.now) × (held a.right ≡ right.now) × (sides_refusal left.now right.now ≡ None)) (λ e. sides_refusal left.now right.now ≡ Some e) }
    {
        let left = rising_list(left, 0)?;
        let right = rising_list(right, Literal::Concept(0))?;
        Ok(ConceptAxiom { left, right })
    }

    /// The left concepts.
    pub fn left(&self) -> &[u8]
        ensures value { result.now ≡ held self.now.left }
        ensures few { length result.now ≤ 8 }
    {
        self.left.as_slice()
    }

    /// The right literals.
    pub fn right(&self) -> &[Literal]
        ensures value { result.now ≡ held self.now.right }
        ensures few { length result.now ≤ 8 }
    {
        self.right.as_slice()
    }
}
