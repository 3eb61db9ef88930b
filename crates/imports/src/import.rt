// One import of a use item.
use items::use_tree::ImportAlias;
use paths::join::ImportKind;
use paths::mod_path::PathKind;

// The path of an import: its names are a part of the list of names.
#[derive(Clone, Copy)]
pub struct ImportPath {
    pub kind: PathKind,
    pub first: usize,
    pub count: usize,
}

#[derive(Clone, Copy)]
pub struct Import {
    pub path: ImportPath,
    pub kind: ImportKind,
    pub alias: Option<ImportAlias>,
    // the number of lowered use nodes before it in its item
    pub place: u32,
}
