// Making a path of names that are at hand.
ghost use Rattle.std.specs.Prelude.{◌≡◌, take};
ghost use Rattle.paths.specs.Names.{names_of};

use crate::mod_path::{MAX_SEGMENTS, ModPath, PathKind};
use crate::name::Name;

impl ModPath {
    // A path of a kind with at most 64 names; any more are left out.
    pub fn from_segments(kind: PathKind, names: &[Name]) -> ModPath
        ensures kind { result.kind ≡ kind }
        ensures names { names_of result ≡ take MAX_SEGMENTS names.now }
    {
        let mut path = ModPath::from_kind(kind);
        let count = MAX_SEGMENTS.min(names.len());
        let _ = path.names.extend_from_slice(&names[..count]);
        path
    }
}
