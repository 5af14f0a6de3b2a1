ghost use Rattle.std.specs.Prelude.{◌≡◌, ◌<◌, ◌≤◌, [], ◌∷◌, ◌++◌, length, if◌then◌else◌, MatchOption, is_ok};
ghost use Rattle.std.specs.List.{slice_get};
ghost use Rattle.terms.specs.Shorts.{held, place_or_full};

use super::Short;
use crate::full::Full;

impl<T: Copy, const N: usize> Short<T, N> {
    /// The empty list. The filler stands in places that hold nothing, and is never seen.
    pub fn new(filler: T) -> Short<T, N>
        ensures { held result ≡ [] }
    {
        Short {
            items: [filler; N],
            len: 0,
        }
    }

    /// The list of these items, or nothing where they are more than N.
    pub fn from_slice(items: &[T], filler: T) -> Option<Short<T, N>>
        ensures { MatchOption result (N < length items.now) (λ s. held s ≡ items.now) }
    {
        let mut list = Short::new(filler);
        for item in items {
            list.push(*item).ok()?;
        }
        Some(list)
    }

    pub fn len(&self) -> usize
        ensures value { result ≡ length (held self.now) }
        ensures few { result ≤ N }
    {
        self.as_slice().len()
    }

    pub fn as_slice(&self) -> &[T]
        ensures value { result.now ≡ held self.now }
        ensures few { length result.now ≤ N }
    {
        &self.items[..self.len]
    }

    /// The item at place i, counted from 0.
    pub fn get(&self, i: usize) -> Option<T>
        ensures { result ≡ slice_get (held self.now) i }
    {
        self.as_slice().get(i).copied()
    }

    /// Puts the item after the last one. A full list stays as it was.
    pub fn push(&mut self, item: T) -> Result<(), Full>
        ensures answer { result ≡ place_or_full N (held self.old) }
        ensures change { held self.new ≡ (if is_ok result then held self.old ++ item ∷ [] else held self.old) }
    {
        if self.len == N {
            return Err(Full { limit: N });
        }
        self.items[self.len] = item;
        self.len += 1;
        Ok(())
    }
}
