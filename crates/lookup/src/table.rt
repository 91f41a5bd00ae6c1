// A table in rising order, without a heap.
ghost use Rattle.std.specs.Prelude.{◌≡◌, ◌≤◌, ⊤, length, take};
ghost use Rattle.lookup.specs.Sorts.{Rises};

use crate::sorted::Ranked;
use std::alloc::AllocError;

/// Up to `N` records by rising rank, in the value itself: there is no heap. (The kit's `ArrayVec` fills its places with a
/// default, which a name has not, and is not `Copy`.)
#[derive(Drop)]
pub struct Table<R: Ranked, const N: usize> {
    pub(crate) records: [R; N],
    /// The first ones count; what stands past them says nothing.
    pub(crate) len: usize,
    ghost room: { len ≤ N },
    ghost long: { length records ≡ N },
    ghost rising: { Rises R.Ranked.ranked (take len records) },
}

// By hand: a derived `Clone` of a generic struct with ghost fields is refused.
impl<R: Ranked + Copy, const N: usize> Clone for Table<R, N> {
    ghost is_clone = { λ x y. y ≡ x };

    ghost is_infallible = { λ _. ⊤ };

    fn clone(&self) -> Result<Table<R, N>, AllocError> {
        Ok(*self)
    }
}

impl<R: Ranked + Copy, const N: usize> Copy for Table<R, N> {}
