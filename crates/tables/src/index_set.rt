// Keys by index, no two of them alike, in a table that is lent.
ghost use Rattle.std.specs.Prelude.{◌≡◌, ℕ, ◌<◌, IfSome, Result as Answer};
ghost use Rattle.syntax.specs.declared.refusal.Refusal.{Refusal as Why};
ghost use Rattle.tables.specs.Insertion.{Inserted};

use syntax::refusal::Refusal;

// A table of keys, as an index set needs it. It stands beside `KeySet`, which asks for an equivalence and for keys that are
// apart: a table that shows neither can be lent to this one.
pub trait KeyTable<K> {
    ghost count: { Self → ℕ };

    // what a table is after a key was appended, or found no room
    ghost appends: { Self → K → Answer ℕ Why → Self → Type 0 };

    fn count(&self) -> usize
        ensures { result ≡ count self.now };

    // Whether the key at an index is alike.
    fn is_at(&self, index: usize, key: &K) -> bool;

    fn append(&mut self, key: &K) -> Result<usize, Refusal>
        ensures { appends self.old key.now result self.new };
}

// The index of the first key that is alike.
fn find<K, T: KeyTable<K>>(table: &T, key: &K) -> Option<usize>
    ensures { IfSome result (λ i. i < T.count table.now) }
{
    (0..table.count()).find(|index| table.is_at(*index, key))
}

// The index of a key, which is appended where none is alike.
pub fn insert_full<K, T: KeyTable<K>>(table: &mut T, key: &K) -> Result<usize, Refusal>
    ensures { Inserted T.count T.appends table.old key.now result table.new }
{
    if let Some(index) = find(table, key) {
        return Ok(index);
    }
    table.append(key)
}
