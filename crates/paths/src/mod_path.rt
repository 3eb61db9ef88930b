// A path as it is read: its kind and its names.
use crate::name::Name;
use tables::table::Table;

pub mod make;
pub mod read;

// Most segments that a path of a source has.
pub const MAX_SEGMENTS: usize = 64;

#[derive(Clone, Copy, PartialEq, Eq, Debug)]
pub enum PathKind {
    Plain,
    // `self` is `Super(0)`
    Super(u32),
    Crate,
    // begins with `::`
    Abs,
    DollarCrate,
}

#[derive(Clone, Copy)]
pub struct ModPath {
    kind: PathKind,
    names: Table<Name, 64>,
}
