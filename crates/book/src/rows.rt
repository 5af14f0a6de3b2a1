// A rising row of literals, kept in the front of lent memory as far as it has room. And where two lists first differ.
ghost use Rattle.std.specs.Prelude.{◌≡◌, ◌<◌, ◌≤◌, List, [], ◌∷◌, ◌++◌, length, MatchOption};
ghost use Rattle.terms.specs.declared.literals.Literal.{Literal};
ghost use Rattle.terms.specs.Literals.{literal_precedes};
ghost use Rattle.forms.specs.Limits.{head_limit};
ghost use Rattle.calculus.specs.Fronts.{first_apart, placed, placed_all};

use std::mem::swap;
use terms::{Literal, Ordered};

// A row of literals in lent memory that is longer than any head: the first `len` literals are those that the row keeps.
#[derive(Drop)]
pub(crate) struct Row<'a> {
    memory: &'a mut [Literal],
    len: usize,
    ghost fits: { len ≤ length memory.now },
    ghost long: { head_limit < length memory.now },
}

impl<'a> Row<'a> {
    ghost use Rattle.book.specs.Rows.{Keeps, kept, spared};

    // The empty row over this memory.
    pub(crate) fn new(memory: &'a mut [Literal]) -> Row<'a>
        requires { head_limit < length memory.old }
        ensures { Keeps result [] }
    {
        Row { memory, len: 0 }
    }

    // The literals that the row keeps.
    pub(crate) fn as_slice(&self) -> &[Literal]
        ensures { result.now ≡ kept self.now }
    {
        &self.memory[..self.len]
    }

    // Puts x at its place in the row, unless it is there. The last literal is dropped where no room is left for it.
    pub(crate) fn put(&mut self, x: Literal)
        ensures { (row : List Literal) → Keeps self.old row → Keeps self.new (placed literal_precedes x row) }
    {
        let len = self.len;
        if let Some(last) = push_in(&mut self.memory[..len], x) {
            if len < self.memory.len() {
                self.memory[len] = last;
                self.len = len + 1;
            }
        }
    }

    // Puts each of the literals at its place in the row, but for the one that is to go, if one is.
    pub(crate) fn put_all(&mut self, literals: &[Literal], gone: Option<Literal>)
        ensures { (row : List Literal) → Keeps self.old row → Keeps self.new (placed_all literal_precedes (spared gone literals.now) row) }
    {
        for literal in literals {
            if !gone.is_some_and(|own| own.same(literal)) {
                self.put(*literal);
            }
        }
    }
}

// Puts x at its place in the row, unless it is there, and answers the last item, which has no place left.
fn push_in<T: Ordered>(row: &mut [T], x: T) -> Option<T>
    ensures { MatchOption result (row.new ≡ placed T.precedes x row.old) (λ last. row.new ++ last ∷ [] ≡ placed T.precedes x row.old) }
{
    let mut carry = x;
    for slot in row.iter_mut() {
        if carry.before(slot) {
            swap(slot, &mut carry);
        } else if !slot.before(&carry) {
            return None;
        }
    }
    Some(carry)
}

// Where two lists first differ, or the length of the shorter, or nothing where they are equal.
pub(crate) fn first_difference<T: Ordered>(xs: &[T], ys: &[T]) -> Option<usize>
    ensures { result ≡ first_apart T.precedes 0 xs.now ys.now }
{
    let apart = xs.iter().zip(ys).position(|(x, y)| !x.same(y));
    let end = xs.len().min(ys.len());
    apart.or((xs.len() != ys.len()).then_some(end))
}
