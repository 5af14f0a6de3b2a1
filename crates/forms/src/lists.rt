// Lists of a form, made of numbers.
ghost use Rattle.std.specs.Prelude.{◌≡◌, ◌≤◌, [], length, map, true, None};
ghost use Rattle.std.specs.Option.{option_map};
ghost use Rattle.terms.specs.Shorts.{held};
ghost use Rattle.forms.specs.Items.{MadeOrRefused, items_refusal, listable, may_stand};

use crate::numbered::Numbered;
use std::alloc::AllocError;
use terms::{Refusal, Short};

/// A list of at most N items, which numbers that get no refusal state.
pub struct Items<T: Numbered, const N: usize> {
    list: Short<T, N>,
    ghost ok: { listable T.refused T.follows N (map T.numbers (held list)) ≡ true },
}

impl<T: Numbered, const N: usize> Copy for Items<T, N> {}

impl<T: Numbered, const N: usize> Clone for Items<T, N> {
    ghost is_clone = { λ x y. y ≡ x };

    ghost is_infallible = { λ _. Unit {0} };

    fn clone(&self) -> Result<Items<T, N>, AllocError> {
        Ok(*self)
    }
}

impl<T: Numbered + Default, const N: usize> Items<T, N> {
    /// The list that these numbers state, or the refusal of `list_of`.
    pub fn new(stated: &[T::Numbers]) -> Result<Items<T, N>, Refusal>
        ensures { MadeOrRefused (λ items. map T.numbers (held items.list)) (items_refusal T.refused T.follows N None) stated.now result }
    {
        let list = list_of(stated, T::default())?;
        Ok(Items { list })
    }

    /// The empty list.
    pub fn none() -> Items<T, N>
        ensures { held result.list ≡ [] }
    {
        Items {
            list: Short::new(T::default()),
        }
    }
}

impl<T: Numbered, const N: usize> Items<T, N> {
    pub fn as_slice(&self) -> &[T]
        ensures value { result.now ≡ held self.now.list }
        ensures few { length result.now ≤ N }
        ensures stated { listable T.refused T.follows N (map T.numbers result.now) ≡ true }
    {
        self.list.as_slice()
    }
}

impl<T: Numbered, const N: usize> From<Items<T, N>> for Short<T, N> {
    ghost from_gives = { λ items list. list ≡ items.list };

    fn from(stated: Items<T, N>) -> Short<T, N> {
        stated.list
    }
}

// Whether the item may stand after the last one, if there is one.
fn may_stand<T: Numbered>(last: Option<T>, item: T) -> bool
    ensures { result ≡ may_stand T.follows (option_map T.numbers last) (T.numbers item) }
{
    last.is_none_or(|before| item.may_follow(&before))
}

/// The list that these numbers state, of at most N items. As in a line, an item is refused as too many (4) before its numbers are looked at (2), and
/// these before it is compared with the item before it (3).
pub fn list_of<T: Numbered, const N: usize>(
    stated: &[T::Numbers],
    filler: T,
) -> Result<Short<T, N>, Refusal>
    ensures { MadeOrRefused (λ s. map T.numbers (held s)) (items_refusal T.refused T.follows N None) stated.now result }
{
    let mut list = Short::new(filler);
    for number in stated {
        if list.len() == N {
            return Err(Refusal::TooLong { at: 0 });
        }
        let item = T::from_numbers(*number)?;
        if !may_stand(list.as_slice().last().copied(), item) {
            return Err(Refusal::NotRising { at: 0 });
        }
        let _ = list.push(item);
    }
    Ok(list)
}
