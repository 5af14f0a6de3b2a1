//! The book: it takes axioms, replays derivations from them, and answers what they show and what a sample refutes. Its one call keeps the law of
//! every past, which crates/calculus/specs/Law.antt states.
#![tactic(auto)]

mod asking;
mod charting;
mod checks;
mod clauses;
mod core_step;
mod entry;
mod hyper;
mod offer;
mod pred;
mod reading;
mod rows;
mod state;
mod step;

pub use calculus::Answer;
pub use checks::SCRATCH_NEEDED;
pub use clauses::Clause;
pub use state::Book;
