// Many rows at once. What is marked afterwards is in each contract, as with the other methods.
#![tactic(auto, using(crate::proofs::Rows::lengths), unfolding(crate::specs::Held::held, crate::specs::Held::marked))]

ghost use Rattle.std.specs.Prelude.{◌≡◌, ◌+◌, ◌<◌, ◌≤◌, ◌++◌, length, take, drop, MatchResult};
ghost use Rattle.syntax.specs.declared.refusal.Refusal.TheVariants.{TableFull};
ghost use Rattle.tables.specs.Held.{held, marked};

use super::Table;
use syntax::refusal::Refusal;

// Writes rows over those from an index on.
fn copy_in<T: Copy>(all: &mut [T], start: usize, rows: &[T])
    requires { start + length rows.now ≤ length all.old }
    ensures { take (start + length rows.now) all.new ≡ take start all.old ++ rows.now }
{
    for index in 0..rows.len() {
        all[start + index] = rows[index];
    }
}

impl<T: Copy, const N: usize> Table<T, N> {
    // All of the rows at the end, or none of them.
    pub fn extend_from_slice(&mut self, rows: &[T]) -> Result<(), Refusal>
        ensures extends { MatchResult result (λ _. (length (held self.old) + length rows.now ≤ N) × (held self.new ≡ held self.old ++ rows.now)) (λ e. (e ≡ TableFull) × (N < length (held self.old) + length rows.now) × (held self.new ≡ held self.old)) }
        ensures marked { marked self.new ≡ marked self.old }
    {
        let len = self.len;
        if rows.len() > N - len {
            return Err(Refusal::TableFull);
        }
        copy_in(&mut self.inner.rows, len, rows);
        self.len = len + rows.len();
        Ok(())
    }

    // Appends a copy of `count` rows, from `first` on.
    pub fn extend_from_within(&mut self, first: usize, count: usize)
        requires inside { first + count ≤ length (held self.old) }
        requires room { length (held self.old) + count ≤ N }
        ensures held { held self.new ≡ held self.old ++ take count (drop first (held self.old)) }
        ensures marked { marked self.new ≡ marked self.old }
    {
        let len = self.len;
        self.inner.rows.copy_within(first..first + count, len);
        self.len = len + count;
    }
}
