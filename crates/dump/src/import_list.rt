// The imports of a use item.
use crate::dumper::Dumper;
use crate::parts::Dump;
use imports::import::{Import, ImportPath};
use item_tree::tree::ItemTree;
use items::ids::ModItemId;
use paths::join::ImportKind;
use paths::mod_path::PathKind;
use paths::name::Name;
use syntax::refusal::{Needed, Refusal};
use syntax::source::SyntaxSource;

// No heap: the imports and their names go to arrays.
const MAX_IMPORTS: usize = 1_024;

// Imports with more names together are written as their number only.
const MAX_NAMES: usize = 16_384;

const NO_IMPORT: Import = Import {
    path: ImportPath {
        kind: PathKind::Plain,
        first: 0,
        count: 0,
    },
    kind: ImportKind::Single,
    alias: None,
    place: 0,
};

impl<S: SyntaxSource> Dumper<'_, '_, '_, '_, S> {
    pub(crate) fn dump_imports(&mut self, tree: &ItemTree, id: ModItemId) -> Result<(), Refusal> {
        let mut imports = [NO_IMPORT; MAX_IMPORTS];
        let mut names = [Name::Missing; MAX_NAMES];
        match tree.expand(id, &mut imports, &mut names) {
            Ok(lengths) => self.dump_import_list(&imports[0..lengths.imports], &names),
            Err(Refusal::TooShort(Needed::Imports { imports, names })) => {
                self.say(format_args!("imports {imports} names {names}\n"));
                Ok(())
            }
            Err(refusal) => Err(refusal),
        }
    }

    fn dump_import_list(&mut self, imports: &[Import], names: &[Name]) -> Result<(), Refusal> {
        for import in imports {
            self.dump_import(*import, names)?;
        }
        Ok(())
    }

    fn dump_import(&mut self, import: Import, names: &[Name]) -> Result<(), Refusal> {
        let kind = match import.kind {
            ImportKind::Single => "single",
            ImportKind::TypeOnly => "type-only",
            ImportKind::Glob => "glob",
        };
        self.say(format_args!("import {} {kind}", import.place));
        let first = import.path.first.min(names.len());
        let end = first.saturating_add(import.path.count).min(names.len());
        self.dump_path(import.path.kind, &names[first..end])?;
        import.alias.dump_to(self)?;
        self.say("\n");
        Ok(())
    }
}
