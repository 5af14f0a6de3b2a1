// Lists that are worked out item by item, and writing them to lent memory.
ghost use Rattle.std.specs.Prelude.{◌≡◌, ◌^◌, ◌≤◌, List, ◌++◌, length, drop, MatchOption};
ghost use Rattle.std.specs.Iterator.{YieldsFirst, item_count};
ghost use Rattle.terms.specs.Lists.{removal, union};
ghost use Rattle.terms.specs.Writing.{Gives, room_for, written};

use crate::order::Ordered;
use crate::refusals::Refusal;

/// The join of two lists, item by item.
#[derive(Clone, Copy)]
pub(crate) struct Join<'a, T> {
    pub(crate) xs: &'a [T],
    pub(crate) ys: &'a [T],
}

impl<T: Ordered> Iterator for Join<'_, T> {
    type Item = T;

    ghost next_gives = { YieldsFirst (λ j. union T.precedes j.xs.now j.ys.now) };

    ghost remaining = { item_count (λ j. union T.precedes j.xs.now j.ys.now) };

    fn next(&mut self) -> Option<T> {
        let Some((x, xs)) = self.xs.split_first() else {
            let (y, ys) = self.ys.split_first()?;
            self.ys = ys;
            return Some(*y);
        };
        let Some((y, ys)) = self.ys.split_first() else {
            self.xs = xs;
            return Some(*x);
        };
        if x.before(y) {
            self.xs = xs;
            return Some(*x);
        }
        self.ys = ys;
        if y.before(x) {
            return Some(*y);
        }
        self.xs = xs;
        Some(*x)
    }
}

/// A list without one item, item by item.
#[derive(Clone, Copy)]
pub(crate) struct Without<'a, T> {
    pub(crate) xs: &'a [T],
    pub(crate) gone: T,
}

impl<T: Ordered> Iterator for Without<'_, T> {
    type Item = T;

    ghost next_gives = { YieldsFirst (λ w. removal T.precedes w.gone w.xs.now) };

    ghost remaining = { item_count (λ w. removal T.precedes w.gone w.xs.now) };

    fn next(&mut self) -> Option<T> {
        while let Some((x, xs)) = self.xs.split_first() {
            self.xs = xs;
            if !self.gone.same(x) {
                return Some(*x);
            }
        }
        None
    }
}

/// How many items there are, or nothing where a `usize` does not hold that many.
pub(crate) fn count<T: Copy, I: Iterator<Item = T> + Copy>(items: I) -> Option<usize>
    ghost list: { List T }
    requires { Gives I.can_next I.next_gives I.remaining items list }
    ensures { MatchOption result (2 ^ 64 ≤ length list) (λ n. n ≡ length list) }
{
    let mut n = 0usize;
    for _ in items {
        n = n.checked_add(1)?;
    }
    Some(n)
}

/// Writes the items to the front of `out` and answers how many they are.
pub(crate) fn write<T: Copy, I: Iterator<Item = T>>(items: I, out: &mut [T]) -> usize
    ghost list: { List T }
    requires gives { Gives I.can_next I.next_gives I.remaining items list }
    requires fits { length list ≤ length out.old }
    ensures count { result ≡ length list }
    ensures memory { out.new ≡ list ++ drop (length list) out.old }
{
    // An index of `enumerate` would have to be shown to fit a `usize` for each iterator, and of slots in a `zip` it is not known what they hold afterwards.
    let mut n = 0;
    for item in items {
        out[n] = item;
        n += 1;
    }
    n
}

/// Writes the items, which are `needed` many, to the front of `out` and answers how many they are; where they do not fit, `out` stays as it was.
pub(crate) fn write_out<T: Copy, I: Iterator<Item = T>>(
    items: I,
    needed: usize,
    out: &mut [T],
) -> Result<usize, Refusal>
    ghost list: { List T }
    requires gives { Gives I.can_next I.next_gives I.remaining items list }
    requires counted { needed ≡ length list }
    ensures answer { result ≡ room_for list (length out.old) }
    ensures memory { out.new ≡ written list out.old }
{
    if needed <= out.len() {
        Ok(write(items, out))
    } else {
        Err(Refusal::MemoryTooShort { needed })
    }
}
