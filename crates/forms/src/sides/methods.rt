ghost use Rattle.std.specs.Prelude.{◌≡◌, true};
ghost use Rattle.terms.specs.declared.literals.Literal.TheVariants.{Forall};
ghost use Rattle.forms.specs.Numbers.{side_numbers, side_refused};

use super::Side;
use crate::numbered::Numbered;
use crate::numbering::role_of;
use crate::numbers::SideNumbers;
use crate::ranges::ClauseNumber;
use terms::{Literal, Refusal};

impl Side {
    /// The literal that the clause is to have.
    pub fn literal(self) -> Literal
        ensures { result ≡ Forall self.role self.concept }
    {
        Literal::Forall(self.role, self.concept)
    }
}

impl Numbered for Side {
    type Numbers = SideNumbers;

    ghost numbers = { side_numbers };

    ghost refused = { side_refused };

    ghost follows = { λ _ _. true };

    fn from_numbers(stated: SideNumbers) -> Result<Side, Refusal> {
        let clause = ClauseNumber::new(stated.clause)?.index() as u16;
        let role = role_of(stated.role)?;
        let concept = u8::from_numbers(stated.concept)?;
        Ok(Side {
            clause,
            role,
            concept,
        })
    }

    fn may_follow(&self, _last: &Side) -> bool {
        true
    }
}
