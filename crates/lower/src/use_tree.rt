// Lowering a use tree: its lowered nodes go to the table one after another, a group before its members.
ghost use Rattle.std.specs.Prelude.{◌≡◌, ℕ, [], ◌∷◌, ◌++◌, length, IsOk, MatchResult, Result};
ghost use Rattle.syntax.specs.Children.{StandsIn};
ghost use Rattle.syntax.specs.declared.refusal.Refusal.{Refusal as Refused};
ghost use Rattle.syntax.specs.declared.refusal.Refusal.TheVariants.{TableFull};
ghost use Rattle.tables.specs.Held.{held};
ghost use Rattle.items.specs.Aliases.{alias_of};
ghost use Rattle.lower.specs.Keeping.{Keeps};

use crate::lowering::Lowering;
use items::records::UnknownMark;
use items::use_tree::{ImportAlias, UseTreeKind};
use paths::interned::PathId;
use paths::mod_path::{ModPath, PathKind};
use paths::name::Name;
use syntax::kind::SyntaxKind;
use syntax::refusal::Refusal;
use syntax::source::SyntaxSource;
use syntax::walk::{NodeRef, child_of_kind, children};
use tables::table::Table;

// Use groups stand at most this deep.
pub const MAX_USE_DEPTH: u32 = 40;

// The node number of each place of a use tree.
pub type UseTreeMapping = Table<u32, 1024>;

// What gets the number of each node that is lowered.
pub trait NodeMapping {
    // what a call leaves
    ghost records: { Self → ℕ → Result Unit Refused → Self → Type 0 };

    fn record(&mut self, node: u32) -> Result<(), Refusal>
        ensures { records self.old node result self.new };
}

impl NodeMapping for UseTreeMapping {
    ghost records = { λ s node r t. MatchResult r (λ _. held t ≡ held s ++ node ∷ []) (λ e. (e ≡ TableFull) × (length (held s) ≡ 1024) × (held t ≡ held s)) };

    fn record(&mut self, node: u32) -> Result<(), Refusal> {
        let _ = self.push(node)?;
        Ok(())
    }
}

// The mapping of a use tree whose nodes nobody asks for.
#[derive(Clone, Copy)]
pub struct Unmapped;

impl NodeMapping for Unmapped {
    ghost records = { λ s node r t. IsOk r };

    fn record(&mut self, _node: u32) -> Result<(), Refusal> {
        Ok(())
    }
}

// The alias that a Rename child gives; without a text it is `_`.
pub fn alias_of<S: SyntaxSource>(source: &S, node: NodeRef) -> Option<ImportAlias>
    ensures { StandsIn (S.SyntaxSource.meaning source.now) node → result ≡ alias_of (S.SyntaxSource.meaning source.now) node }
{
    let rename = child_of_kind(source, node, SyntaxKind::Rename)?;
    Some(Name::of_text(rename.node.text).map_or(ImportAlias::Underscore, ImportAlias::Alias))
}

// What a use node is, by its mark.
#[derive(Clone, Copy, PartialEq, Eq, Debug)]
enum UseMark {
    Single,
    Glob,
    Group,
    // after a bare `::`
    AbsGlob,
    AbsGroup,
}

impl TryFrom<u32> for UseMark {
    type Error = UnknownMark;

    fn try_from(mark: u32) -> Result<UseMark, UnknownMark> {
        match mark {
            0 => Ok(UseMark::Single),
            1 => Ok(UseMark::Glob),
            2 => Ok(UseMark::Group),
            5 => Ok(UseMark::AbsGlob),
            6 => Ok(UseMark::AbsGroup),
            _ => Err(UnknownMark { mark }),
        }
    }
}

// A path that cannot be read.
#[derive(Clone, Copy, PartialEq, Eq, Debug)]
struct Unreadable;

// The path that is written on a use node, if one is.
fn path_of<S: SyntaxSource>(
    source: &S,
    tree: NodeRef,
    mark: UseMark,
) -> Result<Option<ModPath>, Unreadable> {
    if mark == UseMark::AbsGlob || mark == UseMark::AbsGroup {
        return Ok(Some(ModPath::from_kind(PathKind::Abs)));
    }
    match child_of_kind(source, tree, SyntaxKind::Path) {
        Some(path) => ModPath::from_src(source, path).map(Some).ok_or(Unreadable),
        None => Ok(None),
    }
}

impl<S: SyntaxSource> Lowering<'_, '_, S> {
    // Lowers a use node and then its members, unless it is passed over; `depth` levels may follow.
    pub fn lower_use_tree<M: NodeMapping>(
        &mut self,
        mapping: &mut M,
        tree: NodeRef,
        depth: u32,
    ) -> Result<(), Refusal>
        ensures { Keeps self.old self.new }
    {
        let Some(kind) = self.lower_use_kind(tree)? else {
            return Ok(());
        };
        let place = self.tables.push_use(kind)?;
        mapping.record(tree.number)?;
        let UseTreeKind::Prefixed { prefix, .. } = kind else {
            return Ok(());
        };
        let source = self.source;
        for child in children(source, tree) {
            if child.is(SyntaxKind::UseTree) && depth > 0 {
                self.lower_use_tree(mapping, child, depth - 1)?;
            }
        }
        let end = self.tables.use_count() as u32;
        let kind = UseTreeKind::Prefixed { prefix, end };
        self.tables.replace_use(place, kind);
        Ok(())
    }

    // The record of a use node, with no members yet, unless the node is passed over.
    fn lower_use_kind(&mut self, tree: NodeRef) -> Result<Option<UseTreeKind>, Refusal>
        ensures { Keeps self.old self.new }
    {
        let Ok(mark) = UseMark::try_from(tree.node.mark) else {
            return Ok(None);
        };
        // The path is looked at where it is, since it is large.
        let read = path_of(self.source, tree, mark);
        let Ok(path) = &read else {
            return Ok(None);
        };
        let alias = alias_of(self.source, tree);
        // Globs can't be renamed
        if matches!(mark, UseMark::Glob | UseMark::AbsGlob) && alias.is_some() {
            return Ok(None);
        }
        let path = self.intern_maybe(path.as_ref())?;
        Ok(match mark {
            UseMark::Single => path.map(|path| UseTreeKind::Single { path, alias }),
            UseMark::Glob | UseMark::AbsGlob => Some(UseTreeKind::Glob { path }),
            UseMark::Group | UseMark::AbsGroup => Some(UseTreeKind::Prefixed {
                prefix: path,
                end: 0,
            }),
        })
    }

    // The number of a path, if there is one. With `map` and `transpose` the proof was not found that the closure keeps the tables.
    fn intern_maybe(&mut self, path: Option<&ModPath>) -> Result<Option<PathId>, Refusal>
        ensures { Keeps self.old self.new }
    {
        match path {
            Some(path) => {
                let path = self.tables.intern(path)?;
                Ok(Some(path))
            }
            None => Ok(None),
        }
    }
}
