ghost use Rattle.std.specs.Prelude.{◌≡◌, false, MatchResult};
ghost use Rattle.terms.specs.declared.refusals.Refusal.TheVariants.{OutOfRange};
ghost use Rattle.models.specs.Facts.{fact_in_range};

use super::Entry;
use crate::facts::Fact;
use terms::Refusal;

impl Entry {
    /// The entry that says this fact, whose numbers are to be in their ranges.
    pub fn new(fact: Fact) -> Result<Entry, Refusal>
        ensures { MatchResult result (λ e. e.fact ≡ fact) (λ e. (fact_in_range fact ≡ false) × (e ≡ OutOfRange 0)) }
    {
        if fact.is_in_range() {
            Ok(Entry { fact })
        } else {
            Err(Refusal::OutOfRange { at: 0 })
        }
    }

    /// What the entry says.
    pub fn fact(self) -> Fact
        ensures { result ≡ self.fact }
    {
        self.fact
    }
}
