// Expanding a use item into its imports.
ghost use Rattle.std.specs.Prelude.{◌≡◌, ◌≤◌, length, MatchResult};

use crate::import::Import;
use crate::lists::{ImportHead, ImportLists, Lengths};
use items::records::UseTrees;
use items::use_tree::{ImportAlias, UseTreeKind};
use lower::use_tree::MAX_USE_DEPTH;
use paths::interned::PathId;
use paths::join::{ImportKind, PathShape, concat_mod_paths, single_import};
use paths::name::Name;
use syntax::refusal::{Needed, Refusal};
use tables::table::Table;
use tree_tables::tree::TreeTables;

// The most names that the groups around a leaf have: 64 on each of 40 levels.
const MAX_PREFIX_NAMES: usize = 2_560;

// What a path comes to under the groups around it, and its own names.
#[derive(Clone, Copy)]
struct Joined<'t> {
    shape: Option<PathShape>,
    own: &'t [Name],
}

// A group or a glob under the groups around it, unless they do not join; without a path it takes the prefix.
fn join_or<'t>(
    tables: &'t TreeTables,
    prefix: Option<PathShape>,
    path: Option<PathId>,
) -> Result<Option<Joined<'t>>, Refusal> {
    let Some(path) = path else {
        return Ok(Some(Joined {
            shape: prefix,
            own: &[],
        }));
    };
    let path = tables.path(path)?;
    let Some(whole) = concat_mod_paths(prefix, path.shape()) else {
        return Ok(None);
    };
    Ok(Some(Joined {
        shape: Some(whole),
        own: tables.names(path),
    }))
}

// Expanding the use nodes of one item.
#[derive(Drop)]
struct Expansion<'t, 'i, 'n> {
    tables: &'t TreeTables,
    // the number of the item's first use node
    first: u32,
    // the names of the groups around the node at hand
    around: Table<Name, MAX_PREFIX_NAMES>,
    lists: ImportLists<'i, 'n>,
}

impl Expansion<'_, '_, '_> {
    // A single imports what its path names, if it joins.
    fn single(
        &mut self,
        prefix: Option<PathShape>,
        path: PathId,
        alias: Option<ImportAlias>,
        place: u32,
    ) -> Result<(), Refusal> {
        let path = self.tables.path(path)?;
        if let Some((path_kind, kind)) = single_import(prefix, path.shape()) {
            let head = ImportHead {
                path: path_kind,
                kind,
                alias,
                place,
            };
            let own = self.tables.names(path);
            self.lists.emit(head, self.around.as_slice(), own);
        }
        Ok(())
    }

    // A glob imports all of what its path or the prefix names, if they join.
    fn glob(
        &mut self,
        prefix: Option<PathShape>,
        path: Option<PathId>,
        place: u32,
    ) -> Result<(), Refusal> {
        if let Some(joined) = join_or(self.tables, prefix, path)?
            && let Some(whole) = joined.shape
        {
            let head = ImportHead {
                path: whole.kind,
                kind: ImportKind::Glob,
                alias: None,
                place,
            };
            self.lists.emit(head, self.around.as_slice(), joined.own);
        }
        Ok(())
    }

    // The nodes from number `from` to before `to`, which are the members of one group; `depth` levels may follow.
    fn expand_impl(
        &mut self,
        from: u32,
        to: u32,
        depth: u32,
        prefix: Option<PathShape>,
    ) -> Result<(), Refusal> {
        // Plainer than an iterator over the members: the next one stands after all that a group has.
        let mut at = from;
        while at < to {
            let place = at.saturating_sub(self.first);
            let mut next = at + 1;
            match self.tables.use_tree(at)?.kind {
                UseTreeKind::Single { path, alias } => self.single(prefix, path, alias, place)?,
                UseTreeKind::Glob { path } => self.glob(prefix, path, place)?,
                UseTreeKind::Prefixed { prefix: path, end } => {
                    if let Some(inner) = join_or(self.tables, prefix, path)?
                        && depth > 0
                    {
                        let len = self.around.len();
                        let _ = self.around.extend_from_slice(inner.own);
                        self.expand_impl(next, end, depth - 1, inner.shape)?;
                        self.around.truncate(len);
                    }
                    next = next.max(end);
                }
            }
            at = next;
        }
        Ok(())
    }
}

// All imports of a use item; those that find room are written.
fn expand_all(
    tables: &TreeTables,
    uses: UseTrees,
    imports: &mut [Import],
    names: &mut [Name],
) -> Result<Lengths, Refusal> {
    let mut expansion = Expansion {
        tables,
        first: uses.first,
        around: Table::new(Name::Missing),
        lists: ImportLists::new(imports, names),
    };
    let end = uses.first.saturating_add(uses.count);
    expansion.expand_impl(uses.first, end, MAX_USE_DEPTH, None)?;
    Ok(expansion.lists.lengths())
}

// The imports of a use item and the names of their paths, from the front of two lists; answers their lengths.
pub fn expand(
    tables: &TreeTables,
    uses: UseTrees,
    imports: &mut [Import],
    names: &mut [Name],
) -> Result<Lengths, Refusal>
    ensures { MatchResult result (λ n. (n.imports ≤ length imports.old) × (n.names ≤ length names.old)) (λ _. (imports.new ≡ imports.old) × (names.new ≡ names.old)) }
{
    // Two lists each way, so a closure that is run twice would be no plainer than two calls.
    let needed = expand_all(tables, uses, &mut [], &mut [])?;
    if needed.imports > imports.len() || needed.names > names.len() {
        return Err(Refusal::TooShort(Needed::Imports {
            imports: needed.imports,
            names: needed.names,
        }));
    }
    let _ = expand_all(tables, uses, imports, names);
    Ok(needed)
}
