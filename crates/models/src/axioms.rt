// A concept axiom. The struct stands apart, so that files of specs/ can name it; its methods are in the module below.
ghost use Rattle.std.specs.Prelude.{◌≡◌, true, nat_lt};
ghost use Rattle.terms.specs.Lists.{rising};
ghost use Rattle.terms.specs.Literals.{literal_precedes};
ghost use Rattle.terms.specs.Shorts.{held};

use terms::{Literal, Short};

pub mod methods;

/// The most items on either side of a concept axiom.
pub const SIDE_LIMIT: usize = 8;

/// Each element in all the left concepts is in at least one right literal. Both lists rise.
#[derive(Clone, Copy)]
pub struct ConceptAxiom {
    left: Short<u8, SIDE_LIMIT>,
    right: Short<Literal, SIDE_LIMIT>,
    ghost left_rises: { rising nat_lt (held left) ≡ true },
    ghost right_rises: { rising literal_precedes (held right) ≡ true },
}
