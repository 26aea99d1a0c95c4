// Codewords as they are handed to a search. A file of its own, since a struct with a ghost field takes in all that its file cites.
ghost use Rattle.std.specs.Prelude.{◌≡◌, ◌*◌, length};
ghost use Rattle.lloyd_search.specs.Distance.{Widens};

use crate::Coordinate;
use std::alloc::AllocError;

// `count` codewords of `dim` coordinates that stand one after another. Each coordinate widens.
pub struct Codewords<'a, T: Coordinate> {
    pub values: &'a [T],
    pub count: usize,
    pub dim: usize,
    ghost shape: { length values.now ≡ count * dim },
    ghost widens: { Widens T.widens T.missing values.now },
}

// Kept: by hand, since no derive writes these for a generic struct with a ghost field.
impl<T: Coordinate> Copy for Codewords<'_, T> {}

impl<T: Coordinate> Clone for Codewords<'_, T> {
    ghost is_clone = { λ s r. r ≡ s };

    ghost is_infallible = { λ s. Unit {0} };

    fn clone(&self) -> Result<Self, AllocError> {
        Ok(*self)
    }
}
