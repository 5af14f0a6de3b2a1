//! What axioms mean, samples of any kind, and the judge that says whether a sample satisfies every axiom.
#![tactic(auto)]

pub mod axioms;
pub mod charts;
pub mod entries;
pub mod facts;
pub mod interpreted;
pub mod judge;
pub mod listed;
pub mod samples;
pub mod tables;

pub use axioms::ConceptAxiom;
pub use charts::Axiom;
pub use entries::Entry;
pub use facts::Fact;
pub use interpreted::Interpreted;
pub use listed::List;
pub use samples::{Fault, Sample};
pub use tables::Table;
