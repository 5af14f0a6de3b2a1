// What a book answers.
use std::fmt;

/// The answer to a call that is not refused.
#[derive(Clone, Copy)]
pub enum Answer {
    /// An axiom, inclusion, context or clause was entered, under this number.
    Entered(u16),
    /// The book was closed.
    Closed,
    /// The subsumption is shown by the clause of this number.
    Shown(u16),
    /// No clause shows the subsumption.
    Unshown,
    /// This element of the sample refutes the subsumption.
    Refuted(u8),
}

impl fmt::Display for Answer {
    fn fmt<W: fmt::Write>(&self, f: &mut fmt::Formatter<W>) -> fmt::Result {
        match *self {
            Answer::Entered(n) => write!(f, "entered {n}"),
            Answer::Closed => write!(f, "closed"),
            Answer::Shown(n) => write!(f, "shown {n}"),
            Answer::Unshown => write!(f, "unshown"),
            Answer::Refuted(x) => write!(f, "refuted {x}"),
        }
    }
}
