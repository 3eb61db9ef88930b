// The caller's lists that imports go to: all are counted, and those that find room are kept.
use crate::import::{Import, ImportPath};
use items::use_tree::ImportAlias;
use paths::join::ImportKind;
use paths::mod_path::PathKind;
use paths::name::Name;

// How much of the two lists is taken, or would be if there were room.
#[derive(Clone, Copy)]
pub struct Lengths {
    pub imports: usize,
    pub names: usize,
}

// The lengths are counts of their own, because they go on where a list has no room.
#[derive(Drop)]
pub(crate) struct ImportLists<'i, 'n> {
    imports: &'i mut [Import],
    names: &'n mut [Name],
    lengths: Lengths,
}

// What an import is besides its names.
#[derive(Clone, Copy)]
pub(crate) struct ImportHead {
    pub(crate) path: PathKind,
    pub(crate) kind: ImportKind,
    pub(crate) alias: Option<ImportAlias>,
    pub(crate) place: u32,
}

impl<'i, 'n> ImportLists<'i, 'n> {
    pub(crate) fn new(imports: &'i mut [Import], names: &'n mut [Name]) -> ImportLists<'i, 'n> {
        ImportLists {
            imports,
            names,
            lengths: Lengths {
                imports: 0,
                names: 0,
            },
        }
    }
}

impl ImportLists<'_, '_> {
    pub(crate) fn lengths(&self) -> Lengths {
        self.lengths
    }

    // One import more, whose names are `front` and then `own`.
    pub(crate) fn emit(&mut self, head: ImportHead, front: &[Name], own: &[Name]) {
        let Lengths {
            imports: at,
            names: first,
        } = self.lengths;
        // No `skip`: it would go over all names that were laid before.
        if let Some(room) = self.names.get_mut(first..) {
            for (slot, name) in room.iter_mut().zip(front.iter().chain(own)) {
                *slot = *name;
            }
        }
        let count = front.len().saturating_add(own.len());
        let import = Import {
            path: ImportPath {
                kind: head.path,
                first,
                count,
            },
            kind: head.kind,
            alias: head.alias,
            place: head.place,
        };
        if let Some(slot) = self.imports.get_mut(at) {
            *slot = import;
        }
        self.lengths = Lengths {
            imports: at.saturating_add(1),
            names: first.saturating_add(count),
        };
    }
}
