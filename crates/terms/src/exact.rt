// Items that `==` knows.
ghost use Rattle.std.specs.Prelude.{◌≡◌, Decides};
ghost use Rattle.std.proofs.Common.{rules};
ghost use Rattle.terms.specs.Codes.{role_decides};
ghost use Rattle.terms.specs.contracts.refusals.Refusal;
ghost use Rattle.terms.specs.Exact.{enum_decides, none_decide, one_decides, two_decide};

use crate::literals::Literal;
use crate::refusals::Refusal;
use crate::roles::Role;

/// A kind of item whose `==` says whether two are one and the same.
pub trait Exact: Eq {
    ghost exact: { (x y : Self) → Decides (Self.eq x y) (x ≡ y) };
}

impl Exact for Role {
    ghost exact = { role_decides };
}

impl Exact for Literal {
    ghost exact = { Prim.search (rules, role_decides) };
}

impl Exact for Refusal {
    ghost exact = { enum_decides Refusal.enum _ (Prim.search (none_decide, one_decides, two_decide)) };
}
