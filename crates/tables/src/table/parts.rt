// Parts of a table, as slices.
ghost use Rattle.std.specs.Prelude.{◌≡◌, ◌+◌, ◌-◌, ◌<◌, ◌^◌, length, min, MatchOption};
ghost use Rattle.tables.specs.Held.{held};
ghost use Rattle.tables.specs.Parts.{Inside, rows_of};

use super::Table;
use crate::part::Part;

impl<T: Copy, const N: usize> Table<T, N> {
    // The rows of a part that lies in the table.
    pub fn part(&self, part: Part<T>) -> Option<&[T]>
        ensures { MatchOption result (length (held self.now) < part.first + part.count) (λ rows. Inside (held self.now) part × (rows.now ≡ rows_of (held self.now) part)) }
    {
        let first = part.first as usize;
        let end = first + part.count as usize;
        let rows = self.as_slice();
        if end <= rows.len() {
            Some(&rows[first..end])
        } else {
            None
        }
    }

    // The part from a row on, to the table's end.
    pub fn part_from(&self, from: usize) -> Part<T>
        requires { N < 2 ^ 32 }
        ensures first { result.first ≡ min from (length (held self.now)) }
        ensures count { result.count ≡ length (held self.now) - from }
    {
        let len = self.len();
        let first = from.min(len);
        Part::new(first as u32, (len - first) as u32)
    }

    // How many rows find room.
    pub fn room(&self) -> usize
        ensures { result ≡ N - length (held self.now) }
    {
        N - self.len()
    }
}
