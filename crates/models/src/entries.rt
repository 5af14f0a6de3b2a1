// An entry of a sample list. The struct stands apart, so that files of specs/ can name it; its methods are in the module below.
ghost use Rattle.std.specs.Prelude.{◌≡◌, true};
ghost use Rattle.models.specs.Facts.{fact_in_range};

use crate::facts::Fact;

pub mod methods;

/// A fact whose numbers are in their ranges: elements 0 to 63, role names 0 to 31.
#[derive(Clone, Copy)]
pub struct Entry {
    fact: Fact,
    ghost ok: { fact_in_range fact ≡ true },
}
