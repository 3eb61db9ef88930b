// A table's copy is the table.
// Written by hand, since the compiler derives no `Clone` for a generic struct with a ghost field.
ghost use Rattle.std.specs.Prelude.{◌≡◌, ⊤};

use super::Table;
use std::alloc::AllocError;

impl<T: Copy, const N: usize> Clone for Table<T, N> {
    ghost is_clone = { λ x y. y ≡ x };

    ghost is_infallible = { λ _. ⊤ };

    fn clone(&self) -> Result<Table<T, N>, AllocError> {
        Ok(*self)
    }
}
