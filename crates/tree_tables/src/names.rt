// The names of a path.
ghost use Rattle.std.specs.Prelude.{◌≡◌};
ghost use Rattle.paths.specs.Kept.{shown};

use crate::tree::TreeTables;
use paths::interned::InternedPath;
use paths::name::Name;

impl TreeTables {
    pub fn names(&self, path: InternedPath) -> &[Name]
        ensures { result.now ≡ (shown self.now.paths path).names }
    {
        self.paths.names(path)
    }
}
