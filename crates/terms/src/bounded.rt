// Bounded lists. The struct stands alone, so that files of specs/ can name it; its methods are in the module below.
ghost use Rattle.std.specs.Prelude.{◌≡◌, ◌≤◌, length};

use std::alloc::AllocError;

pub mod methods;
pub mod rising;

/// A list of at most N items, in place.
pub struct Short<T, const N: usize> {
    items: [T; N],
    len: usize,
    ghost few: { len ≤ N },
    ghost full: { length items ≡ N },
}

impl<T: Copy, const N: usize> Copy for Short<T, N> {}

impl<T: Copy, const N: usize> Clone for Short<T, N> {
    ghost is_clone = { λ x y. y ≡ x };

    ghost is_infallible = { λ _. Unit {0} };

    fn clone(&self) -> Result<Short<T, N>, AllocError> {
        Ok(*self)
    }
}
