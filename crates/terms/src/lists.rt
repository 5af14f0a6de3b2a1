// Lists of ordered items over lent memory. A rising list stands for the set of its items.
ghost use Rattle.std.specs.Prelude.{◌≡◌, ◌≤◌, true, [], ◌∷◌, ◌++◌, length, drop, Decides, MatchOption};
ghost use Rattle.terms.specs.Lists.{◌∈◌, IsRemoval, IsUnion, SameItems, Subset, contained, equal, member, removal, rising, union};
ghost use Rattle.terms.specs.Writing.{nameable, room_for, written};
ghost use Rattle.terms.specs.declared.refusals.Refusal.TheVariants.{MemoryTooShort};

use crate::order::Ordered;
use crate::refusals::Refusal;
use crate::walks::{Join, Without, count, write, write_out};

/// Whether each item stands before the next.
pub fn is_rising<T: Ordered>(xs: &[T]) -> bool
    ensures { result ≡ rising T.precedes xs.now }
{
    xs.is_sorted_by(|x, y| x.before(y))
}

/// Whether x is one of the items.
pub fn has<T: Ordered>(xs: &[T], x: &T) -> bool
    ensures value { result ≡ member T.precedes x.now xs.now }
    ensures means { Decides result (x.now ∈ xs.now) }
{
    // A copy, since each look at `x` itself would read its memory again.
    let item = *x;
    xs.iter().any(|y| item.same(y))
}

/// Whether every item of xs is one of ys. Neither list need rise.
pub fn is_within<T: Ordered>(xs: &[T], ys: &[T]) -> bool
    ensures value { result ≡ contained T.precedes xs.now ys.now }
    ensures means { Decides result (Subset xs.now ys.now) }
{
    xs.iter().all(|x| has(ys, x))
}

/// Whether the two lists are equal; of rising lists, whether they have the same items.
pub fn is_equal<T: Ordered>(xs: &[T], ys: &[T]) -> bool
    ensures value { result ≡ equal T.precedes xs.now ys.now }
    ensures means { Decides result (xs.now ≡ ys.now) }
    ensures sets { rising T.precedes xs.now ≡ true → rising T.precedes ys.now ≡ true → Decides result (SameItems xs.now ys.now) }
{
    xs.len() == ys.len() && xs.iter().zip(ys).all(|(x, y)| x.same(y))
}

/// Writes the join of two lists to the front of `out` and answers how many items it has; where it does not fit, `out` stays
/// as it was. The join of rising lists rises.
pub fn join<T: Ordered>(xs: &[T], ys: &[T], out: &mut [T]) -> Result<usize, Refusal>
    ensures answer { result ≡ room_for (union T.precedes xs.now ys.now) (length out.old) }
    ensures memory { out.new ≡ written (union T.precedes xs.now ys.now) out.old }
    ensures means { IsUnion xs.now ys.now (union T.precedes xs.now ys.now) }
    ensures rises { rising T.precedes xs.now ≡ true → rising T.precedes ys.now ≡ true → rising T.precedes (union T.precedes xs.now ys.now) ≡ true }
{
    let items = Join { xs, ys };
    // Where there is room for all of both lists, the join need not be counted first.
    if ys.len() <= out.len() && xs.len() <= out.len() - ys.len() {
        return Ok(write(items, out));
    }
    let Some(needed) = count(items) else {
        return Err(Refusal::MemoryTooShort { needed: usize::MAX });
    };
    write_out(items, needed, out)
}

// How many items are left of a list without x. A plain loop, which on bytes is faster than counting what `Without` yields.
fn without_len<T: Ordered>(xs: &[T], x: &T) -> usize
    ensures { result ≡ length (removal T.precedes x.now xs.now) }
{
    let mut count = 0;
    for y in xs {
        if !x.same(y) {
            count += 1;
        }
    }
    count
}

/// Writes a list without x to the front of `out` and answers how many items are left; where they do not fit, `out` stays as
/// it was. What is left of a rising list rises.
pub fn without<T: Ordered>(xs: &[T], x: &T, out: &mut [T]) -> Result<usize, Refusal>
    ensures answer { result ≡ room_for (removal T.precedes x.now xs.now) (length out.old) }
    ensures memory { out.new ≡ written (removal T.precedes x.now xs.now) out.old }
    ensures means { IsRemoval x.now xs.now (removal T.precedes x.now xs.now) }
    ensures rises { rising T.precedes xs.now ≡ true → rising T.precedes (removal T.precedes x.now xs.now) ≡ true }
{
    let left = Without { xs, gone: *x };
    if xs.len() <= out.len() {
        return Ok(write(left, out));
    }
    write_out(left, without_len(xs, x), out)
}
