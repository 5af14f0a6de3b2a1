//! What a book is asked and what its answers mean: the rules as relations over a register, the replies, and the law of every past, with the
//! proof that the replies keep it.
#![tactic(auto)]

pub mod answers;
mod sound;

pub use answers::Answer;
pub use sound::{law_of_every_past, shown_holds, worked_session};
