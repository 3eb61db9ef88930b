// What can be done with a table.
// Each method says what is marked afterwards: no field can, since an invariant knows one state and not the one before.
#![tactic(auto, using(crate::proofs::Rows::lengths), unfolding(crate::specs::Held::held, crate::specs::Held::marked))]

ghost use Rattle.std.specs.Prelude.{◌≡◌, ◌+◌, ◌<◌, ◌≤◌, [], ◌∷◌, ◌++◌, length, take, MatchOption, MatchResult, slice_set};
ghost use Rattle.syntax.specs.Meaning.{at};
ghost use Rattle.syntax.specs.declared.refusal.Refusal.TheVariants.{TableFull};
ghost use Rattle.tables.specs.Held.{held, marked};

use super::{Rows, Table};
use syntax::refusal::Refusal;

impl<T: Copy, const N: usize> Table<T, N> {
    // Inlined, so that the rows are filled where the table is to stand and not copied there.
    #[inline(always)]
    pub fn new(filler: T) -> Table<T, N>
        ensures held { held result ≡ [] }
        ensures marked { marked result ≡ [] }
    {
        Table {
            inner: Rows { rows: [filler; N] },
            len: 0,
            mark: 0,
        }
    }

    pub fn len(&self) -> usize
        ensures value { result ≡ length (held self.now) }
        ensures bound { result ≤ N }
    {
        self.len
    }

    // What the table holds.
    pub fn as_slice(&self) -> &[T]
        ensures { result.now ≡ held self.now }
    {
        let len = self.len;
        let rows = &self.inner.rows[..];
        &rows[0..len]
    }

    // The row at an index, where there is one.
    pub fn get(&self, index: usize) -> Option<T>
        ensures { result ≡ at (held self.now) index }
    {
        self.as_slice().get(index).copied()
    }

    // One row more, and its index.
    pub fn push(&mut self, row: T) -> Result<usize, Refusal>
        ensures pushes { MatchResult result (λ index. (index ≡ length (held self.old)) × (index < N) × (held self.new ≡ held self.old ++ row ∷ [])) (λ e. (e ≡ TableFull) × (length (held self.old) ≡ N) × (held self.new ≡ held self.old)) }
        ensures marked { marked self.new ≡ marked self.old }
    {
        let len = self.len;
        if len >= N {
            return Err(Refusal::TableFull);
        }
        self.inner.rows[len] = row;
        self.len = len + 1;
        Ok(len)
    }

    // Takes the last row off, if it stands past the mark.
    pub fn pop(&mut self) -> Option<T>
        ensures pops { MatchOption result ((held self.old ≡ marked self.old) × (held self.new ≡ held self.old)) (λ row. held self.old ≡ held self.new ++ row ∷ []) }
        ensures marked { marked self.new ≡ marked self.old }
    {
        if self.len <= self.mark {
            return None;
        }
        self.len -= 1;
        Some(self.inner.rows[self.len])
    }

    // Another row at an index past the mark; at any other nothing happens.
    pub fn replace(&mut self, index: usize, row: T)
        ensures past { length (marked self.old) ≤ index → held self.new ≡ slice_set (held self.old) index row }
        ensures before { index < length (marked self.old) → held self.new ≡ held self.old }
        ensures marked { marked self.new ≡ marked self.old }
    {
        if self.mark <= index && index < self.len {
            self.inner.rows[index] = row;
        }
    }

    // Lets go of the rows from `len` on, as far as they stand past the mark.
    pub fn truncate(&mut self, len: usize)
        ensures past { length (marked self.old) ≤ len → held self.new ≡ take len (held self.old) }
        ensures before { len < length (marked self.old) → held self.new ≡ held self.old }
        ensures marked { marked self.new ≡ marked self.old }
    {
        if self.mark <= len && len < self.len {
            self.len = len;
        }
    }

    // Marks the length as the one to go back to.
    pub fn set_mark(&mut self)
        ensures held { held self.new ≡ held self.old }
        ensures marked { marked self.new ≡ held self.old }
    {
        self.mark = self.len;
    }

    // Goes back to the marked length.
    pub fn go_back(&mut self)
        ensures held { held self.new ≡ marked self.old }
        ensures marked { marked self.new ≡ marked self.old }
    {
        self.len = self.mark;
    }
}
