// A form. The enum stands apart, so that files of specs/ can name it; how forms are made is in the module below.
use crate::steps::{Concepts, CoreStep, HyperStep, PredStep, Subsumption};
use models::ConceptAxiom;
use terms::Role;

pub mod making;

/// What a book can be asked.
#[derive(Clone, Copy)]
pub enum Form {
    /// To enter a concept axiom.
    Axiom(ConceptAxiom),
    /// To enter the inclusion of one role under another.
    Under { role: Role, upper: Role },
    /// To close the book.
    Close,
    /// To open a context with this core.
    Context(Concepts),
    /// To enter the clause of a core step.
    Core(CoreStep),
    /// To enter the clause of a hyper step.
    Hyper(HyperStep),
    /// To enter the clause of a pred step.
    Pred(PredStep),
    /// Whether a clause shows a subsumption.
    Ask(Subsumption),
    /// Whether a sample refutes a subsumption.
    Refute(Subsumption),
}
