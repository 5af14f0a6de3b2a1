// The axioms of a chart.
use crate::axioms::ConceptAxiom;
use terms::Role;

/// What a chart states.
#[derive(Clone, Copy)]
pub enum Axiom {
    /// Each element in all the left concepts is in at least one right literal.
    Implies(ConceptAxiom),
    /// Every pair of the first role is a pair of the second.
    Under(Role, Role),
}
