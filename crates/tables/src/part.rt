// Parts of a table.
ghost use Rattle.std.specs.Prelude.{◌≡◌};

use std::marker::PhantomData;

// The rows of a table from `first` on, `count` of them; `T` says of which table.
#[derive(Clone, Copy)]
pub struct Part<T> {
    pub first: u32,
    pub count: u32,
    of: PhantomData<T>,
}

impl<T> Part<T> {
    pub fn new(first: u32, count: u32) -> Part<T>
        ensures first { result.first ≡ first }
        ensures count { result.count ≡ count }
    {
        Part {
            first,
            count,
            of: PhantomData,
        }
    }
}
