// Keys by index, no two of them alike, and each new one at the end.
ghost use Rattle.std.specs.Prelude.{◌≡◌, Bool, true, false, List, length, MatchOption};
ghost use Rattle.syntax.specs.Meaning.{at};
ghost use Rattle.tables.specs.Insertion.{Appended, KeyInserted};
ghost use Rattle.tables.specs.Sets.{Equivalence, Runs, distinct, has, place, same_at};

use syntax::refusal::Refusal;

// A table of keys that are compared by what they mean.
pub trait KeySet<K> {
    // what keys are compared by
    ghost Meant: { Type 0 };

    ghost meant: { K → Meant };

    // whether two keys are alike
    ghost same: { Meant → Meant → Bool };

    ghost equivalence: { Equivalence same };

    // the keys that a table holds
    ghost keys: { Self → List Meant };

    // what it would hold after going back
    ghost Marked: { Type 0 };

    ghost marked: { Self → Marked };

    ghost apart: { (s : Self) → distinct same (keys s) ≡ true };

    // that a key has room beside those that are held
    ghost room: { List Meant → Meant → Type 0 };

    fn key_count(&self) -> usize
        ensures { result ≡ length (keys self.now) };

    // Whether the key at an index is alike.
    fn is_alike(&self, index: usize, key: &K) -> bool
        ensures { result ≡ same_at same (at (keys self.now) index) (meant key.now) };

    // One key more, which is not held.
    fn push_key(&mut self, key: &K) -> Result<usize, Refusal>
        requires { has same (keys self.old) (meant key.now) ≡ false }
        ensures appends { Appended (room (keys self.old) (meant key.now)) (keys self.old) (meant key.now) result (keys self.new) }
        ensures marked { marked self.new ≡ marked self.old };
}

// The index of the first key that is alike.
fn find_key<K, T: KeySet<K>>(table: &T, key: &K) -> Option<usize>
    ensures { MatchOption result (has T.same (T.keys table.now) (T.meant key.now) ≡ false) (λ i. (has T.same (T.keys table.now) (T.meant key.now) ≡ true) × (i ≡ place T.same (T.keys table.now) (T.meant key.now))) }
{
    (0..table.key_count()).find(|index| table.is_alike(*index, key))
}

// The index of a key, which is appended where none is alike.
pub fn insert_key<K, T: KeySet<K>>(table: &mut T, key: &K) -> Result<usize, Refusal>
    ensures inserts { KeyInserted T.same (T.room (T.keys table.old) (T.meant key.now)) (T.keys table.old) (T.meant key.now) result (T.keys table.new) }
    ensures apart { distinct T.same (T.keys table.new) ≡ true }
    ensures marked { T.marked table.new ≡ T.marked table.old }
{
    if let Some(index) = find_key(table, key) {
        return Ok(index);
    }
    table.push_key(key)
}

// At every key whose comparison is an equivalence, a set that began empty holds what came, each once.
pub fn set_stands<K: Drop>(_key: K)
    ensures { (compared : K → K → Bool) → Equivalence compared → (came : List K) → Runs compared came }
{}
