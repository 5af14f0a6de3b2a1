// The table of reach. The struct stands alone, so that files of specs/ can name it; its methods are in the module below.
ghost use Rattle.std.specs.Prelude.{◌≡◌, length};
ghost use Rattle.terms.specs.Limits.{role_codes};

use crate::roles::ROLE_CODES;

pub mod methods;

// One row for each role code, with one weight for each.
const ROWS: usize = ROLE_CODES as usize;

/// What each role code reaches by the inclusions entered so far, kept closed as they are entered.
#[derive(Clone, Copy)]
pub struct Reach {
    rows: [u64; ROWS],
    ghost whole: { length rows ≡ role_codes },
}
