// What an entry of a sample list says.
ghost use Rattle.std.specs.Prelude.{◌≡◌};
ghost use Rattle.std.proofs.Common.{rules};
ghost use Rattle.models.specs.Facts.{fact_in_range};

use crate::samples::ELEMENT_LIMIT;
use terms::Exact;
use terms::roles::ROLE_NAMES;

/// One fact of a sample.
#[derive(Clone, Copy, PartialEq, Eq)]
pub enum Fact {
    /// The element is in the concept.
    In { concept: u8, element: u8 },
    /// The role name links the first element to the second.
    Link { role: u8, from: u8, to: u8 },
}

impl Fact {
    /// Whether its elements are below 64 and its role name is below 32.
    pub(crate) fn is_in_range(self) -> bool
        ensures { result ≡ fact_in_range self }
    {
        match self {
            Fact::In { element, .. } => element < ELEMENT_LIMIT,
            Fact::Link { role, from, to } => role < ROLE_NAMES
                && from < ELEMENT_LIMIT
                && to < ELEMENT_LIMIT,
        }
    }
}

impl Exact for Fact {
    ghost exact = { Prim.search rules };
}
