//! The lowest layer of Hevtsuro: ordered items, rising lists over lent memory, bounded lists, role codes and what they
//! reach, literals, and the refusals that every layer answers with.
#![tactic(auto)]

pub mod bounded;
pub mod exact;
pub mod full;
pub mod lists;
pub mod literals;
pub mod order;
pub mod reaching;
pub mod refusals;
pub mod roles;
mod walks;
pub mod weights;

pub use bounded::Short;
pub use exact::Exact;
pub use full::Full;
pub use literals::Literal;
pub use order::Ordered;
pub use reaching::Reach;
pub use refusals::Refusal;
pub use roles::Role;
