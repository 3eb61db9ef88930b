// Finding and adding paths.
ghost use Rattle.std.specs.Prelude.{◌≡◌, ◌+◌, ◌<◌, ◌≤◌, true, false, [], length, Decides, IfOk, IfSome};
ghost use Rattle.std.specs.Option.{option_map};
ghost use Rattle.syntax.specs.Meaning.{at};
ghost use Rattle.tables.specs.Held.{held, marked};
ghost use Rattle.paths.specs.Alike.{same_path, Room};
ghost use Rattle.paths.specs.Interning.{Interned};
ghost use Rattle.paths.specs.Kept.{PathRows, held_paths, marked_paths, paths_in, marked_paths_in, read_path, shown};
ghost use Rattle.paths.specs.Same.{path_equivalence, paths-apart};
ghost use Rattle.paths.specs.Spelling.{Path};

use crate::interned::{InternedPath, PathId, Paths};
use crate::mod_path::{ModPath, PathKind};
use crate::name::Name;
use syntax::refusal::Refusal;
use tables::index_set::KeyTable;
use tables::key_set::{KeySet, insert_key};
use tables::part::Part;
use tables::table::Table;

impl InternedPath {
    pub fn kind(self) -> PathKind
        ensures { result ≡ self.kind }
    {
        self.kind
    }

    // How many names the path has.
    pub fn len(self) -> u32
        ensures { result ≡ self.names.count }
    {
        self.names.count
    }
}

// Whether the names are equal. Place by place: most paths differ in the first name, and the library's `==` is made for long slices.
fn same_names(a: &[Name], b: &[Name]) -> bool
    ensures { Decides result (a.now ≡ b.now) }
{
    if a.len() != b.len() {
        return false;
    }
    for place in 0..a.len() {
        if a[place] != b[place] {
            return false;
        }
    }
    true
}

impl KeySet<ModPath> for Paths {
    ghost Meant = { Path };

    ghost meant = { read_path };

    ghost same = { same_path };

    ghost equivalence = { path_equivalence };

    ghost keys = { paths_in };

    ghost Marked = { PathRows };

    ghost marked = { marked_paths };

    ghost apart = { paths-apart };

    ghost room = { Room };

    fn key_count(&self) -> usize {
        self.parts.len()
    }

    fn is_alike(&self, index: usize, key: &ModPath) -> bool {
        let Some(part) = self.parts.get(index) else {
            return false;
        };
        part.kind == key.kind() && same_names(self.names(part), key.names())
    }

    fn push_key(&mut self, key: &ModPath) -> Result<usize, Refusal> {
        let names = key.names();
        if names.len() > self.segments.room() {
            return Err(Refusal::TableFull);
        }
        let part = InternedPath {
            kind: key.kind(),
            names: Part::new(self.segments.len() as u32, names.len() as u32),
        };
        let index = self.parts.push(part)?;
        self.segments.extend_from_slice(names)?;
        Ok(index)
    }
}

impl KeyTable<ModPath> for Paths {
    ghost count = { λ s. length (held s.parts) };

    ghost appends = { λ s key r t. (marked_paths t ≡ marked_paths s) × IfOk r (λ i. i < 512) };

    fn count(&self) -> usize {
        self.parts.len()
    }

    fn is_at(&self, index: usize, key: &ModPath) -> bool {
        self.is_alike(index, key)
    }

    // A path that is held stays as it is.
    fn append(&mut self, key: &ModPath) -> Result<usize, Refusal> {
        insert_key(self, key)
    }
}

impl Paths {
    pub fn new() -> Paths
        ensures rows { held_paths result ≡ ([], []) }
        ensures held { paths_in result ≡ [] }
        ensures marked { marked_paths_in result ≡ [] }
    {
        let none = InternedPath {
            kind: PathKind::Plain,
            names: Part::new(0, 0),
        };
        Paths {
            parts: Table::new(none),
            segments: Table::new(Name::Missing),
        }
    }

    // The number of a path, which is added where the table has none like it.
    pub fn intern(&mut self, path: &ModPath) -> Result<PathId, Refusal>
        ensures interns { Interned (paths_in self.old) (read_path path.now) result (paths_in self.new) }
        ensures marked { marked_paths_in self.new ≡ marked_paths_in self.old }
        ensures marked_rows { marked_paths self.new ≡ marked_paths self.old }
    {
        let index = insert_key(self, path)?;
        Ok(PathId {
            number: index as u32,
        })
    }

    // The path of a number.
    pub fn get(&self, id: PathId) -> Option<InternedPath>
        ensures row { result ≡ at (held self.now.parts) id.number }
        ensures path { option_map (shown self.now) result ≡ at (paths_in self.now) id.number }
        ensures len { IfSome result (λ part. part.names.count ≡ length (shown self.now part).names) }
    {
        self.parts.get(id.number as usize)
    }

    // The name at an index of a path.
    pub fn segment(&self, path: InternedPath, index: u32) -> Option<Name>
        ensures name { result ≡ at (shown self.now path).names index }
        ensures within { index < path.names.count → result ≡ at (held self.now.segments) (path.names.first + index) }
        ensures past { path.names.count ≤ index → result ≡ None }
    {
        self.names(path).get(index as usize).copied()
    }

    pub fn set_mark(&mut self)
        ensures held { paths_in self.new ≡ paths_in self.old }
        ensures marked { marked_paths_in self.new ≡ paths_in self.old }
        ensures held_rows { held_paths self.new ≡ held_paths self.old }
        ensures marked_rows { marked_paths self.new ≡ held_paths self.old }
    {
        self.parts.set_mark();
        self.segments.set_mark();
    }

    pub fn go_back(&mut self)
        ensures held { paths_in self.new ≡ marked_paths_in self.old }
        ensures marked { marked_paths_in self.new ≡ marked_paths_in self.old }
        ensures held_rows { held_paths self.new ≡ marked_paths self.old }
        ensures marked_rows { marked_paths self.new ≡ marked_paths self.old }
    {
        self.parts.go_back();
        self.segments.go_back();
    }
}
