ghost use Rattle.std.specs.Prelude.{◌≡◌, ℕ, List, [], ◌∷◌, ◌++◌, Decides, slice_index};
ghost use Rattle.terms.specs.Reaching.{Inclusion, Reaches};
ghost use Rattle.terms.specs.Tables.{Shows, extend, stepped, weight};

use super::Reach;
use crate::roles::Role;
use crate::weights::has_weight;
use std::array;

// The row once it takes in `target` if it reaches e.
fn extended(row: u64, e: Role, target: u64) -> u64
    ensures { result ≡ extend e.code target row }
{
    if has_weight(row, e.code()) {
        row | target
    } else {
        row
    }
}

impl Reach {
    /// The table with no inclusion entered: each role reaches itself alone.
    pub fn new() -> Reach
        ensures { Shows result [] }
    {
        Reach {
            rows: array::from_fn(|x| 1u64 << x),
        }
    }

    /// Whether a chain of inclusions leads from e to s.
    pub fn reaches(&self, e: Role, s: Role) -> bool
        ensures value { result ≡ weight (slice_index self.now.rows e.code) s.code }
        ensures means { (l : List Inclusion) → Shows self.now l → Decides result (Reaches l e.code s.code) }
    {
        has_weight(self.rows[e.code() as usize], s.code())
    }

    // Puts in the step from e to s, and closes the table again.
    fn step(&mut self, e: Role, s: Role)
        ensures { self.new.rows ≡ stepped self.old.rows e.code s.code }
    {
        let target = self.rows[s.code() as usize];
        for row in self.rows.iter_mut() {
            *row = extended(*row, e, target);
        }
    }

    /// Enters the inclusion of e under s, and so that of e's mirror under s's.
    pub fn include(&mut self, e: Role, s: Role)
        ensures { (l : List Inclusion) → Shows self.old l → Shows self.new (l ++ (e.code, s.code) ∷ []) }
    {
        self.step(e.mirror(), s.mirror());
        self.step(e, s);
    }
}
