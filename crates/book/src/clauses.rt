// A clause, and whether a book is open.
ghost use Rattle.std.specs.Prelude.{◌≡◌};
ghost use Rattle.terms.specs.Shorts.{held};

use forms::ContextNumber;
use forms::limits::HEAD_LIMIT;
use terms::{Literal, Short};

// An open book takes axioms, inclusions and its closing; a closed one takes contexts, steps and questions.
#[derive(Clone, Copy, Debug, PartialEq, Eq)]
pub enum Phase {
    Open,
    Closed,
}

/// Each element in all of the core of the context is in at least one literal of the head.
#[derive(Clone, Copy)]
pub struct Clause {
    pub(crate) context: u8,
    pub(crate) head: Short<Literal, HEAD_LIMIT>,
}

impl Clause {
    // The clause of this context with this head.
    pub(crate) fn new(context: ContextNumber, head: Short<Literal, HEAD_LIMIT>) -> Clause
        ensures context { result.context ≡ context.number }
        ensures head { result.head ≡ head }
    {
        Clause {
            context: context.index() as u8,
            head,
        }
    }

    /// The number of the context.
    pub fn context(&self) -> u8
        ensures { result ≡ self.now.context }
    {
        self.context
    }

    /// The literals of the head, which rise.
    pub fn head(&self) -> &[Literal]
        ensures { result.now ≡ held self.now.head }
    {
        self.head.as_slice()
    }
}
