// The distinct paths of a tree, by number.
ghost use Rattle.tables.specs.Held.{held, marked};
ghost use Rattle.paths.specs.Parts.{Laid};

use crate::mod_path::PathKind;
use crate::name::Name;
use tables::part::Part;
use tables::table::Table;

pub mod names;
pub mod table;

// Names a path of one tree.
#[derive(Clone, Copy, PartialEq, Eq, Debug)]
pub struct PathId {
    number: u32,
}

impl PathId {
    // The path that was recorded first.
    pub const FIRST: PathId = PathId { number: 0 };
}

// A path of the table: its names are a part of the table of segments.
#[derive(Clone, Copy)]
pub struct InternedPath {
    kind: PathKind,
    names: Part<Name>,
}

// A table of paths and one of their names, since the subject limits each of them: 512 paths, which
// have 2,048 names together.
#[derive(Clone, Copy)]
pub struct Paths {
    parts: Table<InternedPath, 512>,
    segments: Table<Name, 2048>,
    ghost laid: { Laid (held parts) (held segments) × Laid (marked parts) (marked segments) },
}
