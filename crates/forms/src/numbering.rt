// Roles, concepts and literals, each made of numbers that are to be in their ranges.
ghost use Rattle.std.specs.Prelude.{◌≡◌, nat_lt};
ghost use Rattle.terms.specs.Limits.{concepts, role_codes};
ghost use Rattle.forms.specs.Items.{MadeOrRefused, range_refusal};
ghost use Rattle.forms.specs.Numbers.{literal_numbers, literal_refused, numbers_precede};

use crate::numbered::Numbered;
use crate::numbers::LiteralNumbers;
use terms::{Literal, Ordered, Refusal, Role};

/// The role of a code, below 64.
pub(crate) fn role_of(code: u32) -> Result<Role, Refusal>
    ensures { MadeOrRefused (λ role. role.code) (range_refusal role_codes) code result }
{
    Role::new(u8::from_numbers(code)?)
}

impl Numbered for u8 {
    type Numbers = u32;

    ghost numbers = { λ A. A };

    ghost refused = { range_refusal concepts };

    ghost follows = { nat_lt };

    // u8's own TryFrom answers with an error that is no refusal.
    fn from_numbers(stated: u32) -> Result<u8, Refusal> {
        u8::try_from(stated).map_err(|_| Refusal::OutOfRange { at: 0 })
    }

    fn may_follow(&self, last: &u8) -> bool {
        *last < *self
    }
}

impl Numbered for Literal {
    type Numbers = LiteralNumbers;

    ghost numbers = { literal_numbers };

    ghost refused = { literal_refused };

    ghost follows = { numbers_precede };

    fn from_numbers(stated: LiteralNumbers) -> Result<Literal, Refusal> {
        match stated {
            LiteralNumbers::Concept(a) => Ok(Literal::Concept(u8::from_numbers(a)?)),
            LiteralNumbers::Exists(e, a) => {
                Ok(Literal::Exists(role_of(e)?, u8::from_numbers(a)?))
            }
            LiteralNumbers::Forall(e, a) => {
                Ok(Literal::Forall(role_of(e)?, u8::from_numbers(a)?))
            }
        }
    }

    fn may_follow(&self, last: &Literal) -> bool {
        last.before(self)
    }
}
