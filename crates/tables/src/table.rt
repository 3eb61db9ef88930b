// A table of at most `N` rows that can go back to a length that was marked.
ghost use Rattle.std.specs.Prelude.{◌≡◌, ◌≤◌, length};

pub mod copies;
pub mod methods;
pub mod parts;
pub mod within;

// The array of a table; what stands past the table's length is free.
// An array in a plain struct of its own, since the library takes no memory at run time.
#[derive(Clone, Copy)]
pub struct Rows<T, const N: usize> {
    rows: [T; N],
}

#[derive(Copy)]
pub struct Table<T, const N: usize> {
    inner: Rows<T, N>,
    len: usize,
    // the length to go back to
    mark: usize,
    ghost fits: { (mark ≤ len) × (len ≤ N) × (length inner.rows ≡ N) },
}
