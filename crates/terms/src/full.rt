// What keeps an item from being put into a bounded list.
ghost use Rattle.std.specs.Prelude.{◌≡◌};
ghost use Rattle.terms.specs.declared.refusals.Refusal.TheVariants.{NoPlaceFree};

use crate::refusals::Refusal;
use std::error::Error;
use std::fmt;

/// All places of a bounded list are taken.
#[derive(Clone, Copy, Debug, PartialEq, Eq)]
pub struct Full {
    /// How many places the list has.
    pub limit: usize,
}

impl From<Full> for Refusal {
    ghost from_gives = { λ full refusal. refusal ≡ NoPlaceFree full.limit };

    fn from(full: Full) -> Refusal {
        Refusal::NoPlaceFree { limit: full.limit }
    }
}

impl fmt::Display for Full {
    fn fmt<W: fmt::Write>(&self, f: &mut fmt::Formatter<W>) -> fmt::Result {
        let limit = self.limit;
        write!(f, "all {limit} places are taken")
    }
}

impl Error for Full {}
