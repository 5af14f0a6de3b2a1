//! Forms: what a book can be asked, made of numbers that are checked as a line would be read.
#![tactic(auto)]

mod exact;
pub mod formed;
pub mod limits;
pub mod lists;
pub mod numbered;
mod numbering;
pub mod numbers;
pub mod ranges;
pub mod sides;
pub mod steps;

pub use formed::Form;
pub use lists::Items;
pub use numbered::Numbered;
pub use numbers::{LiteralNumbers, SideNumbers};
pub use ranges::{AxiomNumber, Below, ClauseNumber, ContextNumber};
pub use sides::Side;
pub use steps::{Claim, Concepts, CoreStep, HyperStep, PredStep, Premises, Sides, Subsumption};
