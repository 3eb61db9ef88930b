// The names of a path of the table, as one slice.
ghost use Rattle.std.specs.Prelude.{◌≡◌};
ghost use Rattle.paths.specs.Kept.{shown};

use crate::interned::{InternedPath, Paths};
use crate::join::PathShape;
use crate::name::Name;

impl InternedPath {
    // The path without its names.
    pub fn shape(self) -> PathShape
        ensures { (result.kind ≡ self.kind) × (result.len ≡ self.names.count) }
    {
        PathShape {
            kind: self.kind,
            len: self.names.count as usize,
        }
    }
}

impl Paths {
    // Of a path of another table, the names that stand here: `Table::part` gives no rows where some are missing.
    pub fn names(&self, path: InternedPath) -> &[Name]
        ensures { result.now ≡ (shown self.now path).names }
    {
        let names = self.segments.as_slice();
        let rest = names.get(path.names.first as usize..).unwrap_or(&[]);
        rest.get(..path.names.count as usize).unwrap_or(rest)
    }
}
