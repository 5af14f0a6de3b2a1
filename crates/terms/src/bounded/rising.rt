// Bounded lists that rise, made from slices of any kind.
ghost use Rattle.std.specs.Prelude.{◌≡◌, Some, None, MatchResult};
ghost use Rattle.terms.specs.Shorts.{held, list_refusal};

use super::Short;
use crate::lists::is_rising;
use crate::order::Ordered;
use crate::refusals::Refusal;

/// The list of these items, which are to rise and to be at most N. As in a line, an item is refused as too many (4)
/// before it is compared with the one before it (3).
pub fn rising_list<T: Ordered, const N: usize>(
    items: &[T],
    filler: T,
) -> Result<Short<T, N>, Refusal>
    ensures { MatchResult result (λ s. (held s ≡ items.now) × (list_refusal T.precedes N items.now ≡ None)) (λ e. list_refusal T.precedes N items.now ≡ Some e) }
{
    if !is_rising(&items[..items.len().min(N)]) {
        return Err(Refusal::NotRising { at: 0 });
    }
    Short::from_slice(items, filler).ok_or(Refusal::TooLong { at: 0 })
}
