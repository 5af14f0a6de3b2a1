// The limits of a book and of the lists in its forms, each stated once.
use models::axioms::SIDE_LIMIT;
pub use terms::literals::HEAD_LIMIT;

/// The most axioms of a book: concept axioms and inclusions together.
pub const AXIOM_LIMIT: usize = 256;

/// The most contexts of a book.
pub const CONTEXT_LIMIT: usize = 64;

/// The most clauses of a book.
pub const CLAUSE_LIMIT: usize = 512;

/// The most items of every other list in a form, as of the sides of an axiom.
pub const LIST_LIMIT: usize = SIDE_LIMIT;
