// Use trees: the nodes of one stand one after another, each group before its members.
use paths::interned::PathId;
use paths::name::Name;

#[derive(Clone, Copy)]
pub enum ImportAlias {
    // `as _`
    Underscore,
    // `as name`
    Alias(Name),
}

// What a node of a use tree is; its paths are numbers, or the paths themselves.
#[derive(Clone, Copy)]
pub enum UseTreeKind<P = PathId> {
    // `path::to::Item as Renamed`
    Single { path: P, alias: Option<ImportAlias> },
    // `path::*`; `*` alone can stand in a group
    Glob { path: Option<P> },
    // `prefix::{..}`; the members stand after it, up to `end`
    Prefixed { prefix: Option<P>, end: u32 },
}

#[derive(Clone, Copy)]
pub struct UseTree {
    pub kind: UseTreeKind,
}
