// What the forms of steps and questions carry.
use crate::limits::{HEAD_LIMIT, LIST_LIMIT};
use crate::lists::Items;
use crate::ranges::{AxiomNumber, ClauseNumber, ContextNumber};
use crate::sides::Side;
use terms::{Literal, Role};

/// At most 8 concepts, which rise.
pub type Concepts = Items<u8, LIST_LIMIT>;

/// At most 8 numbers of clauses.
pub type Premises = Items<ClauseNumber, LIST_LIMIT>;

/// At most 8 sides.
pub type Sides = Items<Side, LIST_LIMIT>;

/// At most 12 literals, which rise: the head that a step is claimed to yield.
pub type Claim = Items<Literal, HEAD_LIMIT>;

/// A core step: in a context, a concept of its core.
#[derive(Clone, Copy)]
pub struct CoreStep {
    pub context: ContextNumber,
    pub concept: u8,
}

/// A hyper step: in a context, from an axiom and a premise for each of its left concepts.
#[derive(Clone, Copy)]
pub struct HyperStep {
    pub context: ContextNumber,
    pub axiom: AxiomNumber,
    pub premises: Premises,
    pub claim: Claim,
}

/// A pred step: in a context, from `some role concept` in the first clause, the sides, and a clause of the far context.
#[derive(Clone, Copy)]
pub struct PredStep {
    pub context: ContextNumber,
    pub first: ClauseNumber,
    pub role: Role,
    pub concept: u8,
    pub sides: Sides,
    pub far: ClauseNumber,
    pub claim: Claim,
}

/// The subsumption of the left concepts by the right ones.
#[derive(Clone, Copy)]
pub struct Subsumption {
    pub left: Concepts,
    pub right: Concepts,
}
