// Numbers below a limit.
ghost use Rattle.std.specs.Prelude.{◌≡◌, ◌<◌, true, Some};
ghost use Rattle.std.specs.Fmt.{decimal};
ghost use Rattle.forms.specs.Items.{MadeOrRefused, range_refusal};
ghost use Rattle.forms.specs.Limits.{clause_limit};

use crate::limits::{AXIOM_LIMIT, CLAUSE_LIMIT, CONTEXT_LIMIT};
use crate::numbered::Numbered;
use std::fmt;
use terms::Refusal;

/// A number below LIMIT.
#[derive(Clone, Copy, PartialEq, Eq, PartialOrd, Ord, Hash)]
pub struct Below<const LIMIT: usize> {
    number: u32,
    ghost ok: { number < LIMIT },
}

/// The number of a context of a book.
pub type ContextNumber = Below<CONTEXT_LIMIT>;

/// The number of an axiom of a book.
pub type AxiomNumber = Below<AXIOM_LIMIT>;

/// The number of a clause of a book.
pub type ClauseNumber = Below<CLAUSE_LIMIT>;

impl<const LIMIT: usize> Below<LIMIT> {
    /// The number, which is to be below the limit.
    pub fn new(number: u32) -> Result<Below<LIMIT>, Refusal>
        ensures { MadeOrRefused (λ below. below.number) (range_refusal LIMIT) number result }
    {
        if (number as usize) < LIMIT {
            Ok(Below { number })
        } else {
            Err(Refusal::OutOfRange { at: 0 })
        }
    }

    /// The number.
    pub fn index(&self) -> usize
        ensures value { result ≡ self.now.number }
        ensures range { result < LIMIT }
    {
        self.number as usize
    }
}

impl<const LIMIT: usize> fmt::Display for Below<LIMIT> {
    ghost output = { λ n. Some (decimal n.number) };

    fn fmt<W: fmt::Write>(&self, f: &mut fmt::Formatter<W>) -> fmt::Result {
        let number = self.number;
        write!(f, "{number}")
    }
}

// As the plain number prints.
impl<const LIMIT: usize> fmt::Debug for Below<LIMIT> {
    fn fmt<W: fmt::Write>(&self, f: &mut fmt::Formatter<W>) -> fmt::Result {
        let digits = self.number;
        write!(f, "{digits:?}")
    }
}

impl Default for ContextNumber {
    ghost is_default = { λ n. n.number ≡ 0 };

    fn default() -> ContextNumber {
        ContextNumber { number: 0 }
    }
}

impl Default for AxiomNumber {
    ghost is_default = { λ n. n.number ≡ 0 };

    fn default() -> AxiomNumber {
        AxiomNumber { number: 0 }
    }
}

impl Default for ClauseNumber {
    ghost is_default = { λ n. n.number ≡ 0 };

    fn default() -> ClauseNumber {
        ClauseNumber { number: 0 }
    }
}

impl Numbered for ClauseNumber {
    type Numbers = u32;

    ghost numbers = { λ n. n.number };

    ghost refused = { range_refusal clause_limit };

    ghost follows = { λ _ _. true };

    fn from_numbers(stated: u32) -> Result<ClauseNumber, Refusal> {
        Below::new(stated)
    }

    fn may_follow(&self, _last: &ClauseNumber) -> bool {
        true
    }
}
