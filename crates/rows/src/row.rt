//! A row and what it lists.
ghost use Rattle.std.specs.Prelude.{◌≡◌, ◌≤◌, ⊤};

mod calls;

use std::alloc::AllocError;

/// Up to `N` records in order.
///
/// Places that are not in use are not seen. A row lies in one place of fixed size and is copied as one value, which the library's vectors are not.
pub struct Row<T, const N: usize> {
    items: [T; N],
    len: usize,
    ghost within: { len ≤ N },
}

// By hand: over a ghost field and a type parameter a derive is refused, and so is a derive_where.
impl<T: Copy, const N: usize> Copy for Row<T, N> {}

impl<T: Copy, const N: usize> Clone for Row<T, N> {
    ghost is_clone = { λ x y. y ≡ x };

    ghost is_infallible = { λ _. ⊤ };

    fn clone(&self) -> Result<Row<T, N>, AllocError> {
        Ok(*self)
    }
}

/// The row has no place left.
#[derive(Clone, Copy, PartialEq, Eq, Debug)]
pub struct NoPlace;
