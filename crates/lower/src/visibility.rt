// Visibilities of items, and of a struct's constructor.
ghost use Rattle.std.specs.Prelude.{◌≡◌, List, Some};
ghost use Rattle.syntax.specs.Children.{child_of, StandsIn};
ghost use Rattle.syntax.specs.declared.kind.SyntaxKind.TheVariants.{Path as PathNode};
ghost use Rattle.items.specs.Visible.{visibility_at};
ghost use Rattle.items.specs.Written.{meant_visibility, path_in, private_field, restricted, visibility_of};
ghost use Rattle.items.specs.declared.visibility.RawVisibility.{RawVisibility};
ghost use Rattle.items.specs.declared.visibility.RawVisibility.TheVariants.{PubSelf as Private};
ghost use Rattle.items.specs.declared.visibility.VisibilityExplicitness.TheVariants.{Implicit};
ghost use Rattle.items.specs.declared.visibility.WrittenVisibility.TheVariants.{PubSelf};
ghost use Rattle.tree_tables.specs.Contents.{marked_of};
ghost use Rattle.lower.specs.Keeping.{Keeps};

use crate::lowering::Lowering;
use items::ids::RawVisibilityId;
use items::records::StructValueNsCtor;
use items::visibility::{RawVisibility, VisibilityExplicitness, WrittenVisibility};
use paths::mod_path::{ModPath, PathKind};
use syntax::kind::SyntaxKind;
use syntax::refusal::Refusal;
use syntax::source::SyntaxSource;
use syntax::walk::{NodeRef, child_of_kind, children};
use tree_tables::tree::TreeTables;

fn private_vis() -> WrittenVisibility
    ensures { result ≡ PubSelf Implicit }
{
    WrittenVisibility::PubSelf(VisibilityExplicitness::Implicit)
}

// The visibility that is written on a node.
pub fn visibility_from_ast<S: SyntaxSource>(source: &S, node: NodeRef) -> WrittenVisibility
    ensures { StandsIn (S.SyntaxSource.meaning source.now) node → meant_visibility result ≡ visibility_of (S.SyntaxSource.meaning source.now) node }
{
    let Some(vis) = child_of_kind(source, node, SyntaxKind::Vis) else {
        return private_vis();
    };
    // The mark is read here alone: an enum of the marks would repeat these arms.
    match vis.node.mark {
        0 => WrittenVisibility::Public,
        1 => WrittenVisibility::PubCrate,
        2 => WrittenVisibility::Module(ModPath::from_kind(PathKind::Super(1))),
        3 => WrittenVisibility::PubSelf(VisibilityExplicitness::Explicit),
        _ => visibility_in(source, vis),
    }
}

// `pub(in path)`, which is private where the path is unreadable.
fn visibility_in<S: SyntaxSource>(source: &S, vis: NodeRef) -> WrittenVisibility
    ensures { StandsIn (S.SyntaxSource.meaning source.now) vis → meant_visibility result ≡ restricted (path_in (S.SyntaxSource.meaning source.now) (child_of PathNode (S.SyntaxSource.meaning source.now) vis)) }
{
    child_of_kind(source, vis, SyntaxKind::Path)
        .and_then(|path| ModPath::from_src(source, path))
        .map_or_else(private_vis, WrittenVisibility::Module)
}

// The visibility of the first private field.
fn private_field<S: SyntaxSource>(source: &S, strukt: NodeRef) -> Option<VisibilityExplicitness>
    ensures { StandsIn (S.SyntaxSource.meaning source.now) strukt → result ≡ private_field (S.SyntaxSource.meaning source.now) strukt }
{
    for child in children(source, strukt) {
        if child.is(SyntaxKind::Field) {
            if let WrittenVisibility::PubSelf(explicitness) = visibility_from_ast(source, child) {
                return Some(explicitness);
            }
        }
    }
    None
}

// The least visibility so far, of a struct and its fields none of which is private.
#[derive(Clone, Copy)]
enum Least {
    Public,
    PubCrate,
    Module(RawVisibilityId),
    // more than one module's, from that entry of the constructors' table on
    Modules(usize),
}

// The number of a visibility; the path of a module's goes into the tables.
pub fn alloc_visibility(
    tables: &mut TreeTables,
    visibility: &WrittenVisibility,
) -> Result<RawVisibilityId, Refusal>
    ensures { marked_of tables.new ≡ marked_of tables.old }
{
    match visibility {
        WrittenVisibility::Public => Ok(RawVisibilityId::PUB),
        WrittenVisibility::PubSelf(explicitness) => Ok(private_id(*explicitness)),
        WrittenVisibility::PubCrate => Ok(RawVisibilityId::PUB_CRATE),
        WrittenVisibility::Module(path) => alloc_module_visibility(tables, path),
    }
}

fn alloc_module_visibility(
    tables: &mut TreeTables,
    path: &ModPath,
) -> Result<RawVisibilityId, Refusal>
    ensures { marked_of tables.new ≡ marked_of tables.old }
{
    let path = tables.intern(path)?;
    tables.record_visibility(RawVisibility::Module(path, VisibilityExplicitness::Explicit))
}

impl<S: SyntaxSource> Lowering<'_, '_, S> {
    pub fn lower_visibility(&mut self, item: NodeRef) -> Result<RawVisibilityId, Refusal>
        ensures { Keeps self.old self.new }
    {
        let visibility = visibility_from_ast(self.source, item);
        alloc_visibility(self.tables, &visibility)
    }

    // The constructor of a tuple struct.
    pub fn tuple_struct_ctor_vis(&mut self, strukt: NodeRef) -> Result<StructValueNsCtor, Refusal>
        ensures { Keeps self.old self.new }
    {
        let own = visibility_from_ast(self.source, strukt);
        // `pub(self)` <= anything.
        if let WrittenVisibility::PubSelf(explicitness) = own {
            return Ok(StructValueNsCtor::ValueNsCtorWithVis(private_id(explicitness)));
        }
        // If there is a field private, the minimal visibility is private.
        if let Some(explicitness) = private_field(self.source, strukt) {
            return Ok(StructValueNsCtor::ValueNsCtorWithVis(private_id(explicitness)));
        }
        let least = self.narrowed(Least::Public, &own)?;
        let least = self.narrowed_by_fields(strukt, least)?;
        Ok(self.ctor_of(least))
    }

    fn narrowed_by_fields(&mut self, strukt: NodeRef, own: Least) -> Result<Least, Refusal>
        ensures { Keeps self.old self.new }
    {
        let mut least = own;
        let source = self.source;
        for child in children(source, strukt) {
            if child.is(SyntaxKind::Field) {
                let field = visibility_from_ast(source, child);
                least = self.narrowed(least, &field)?;
            }
        }
        Ok(least)
    }

    // The least visibility with one more.
    fn narrowed(&mut self, least: Least, visibility: &WrittenVisibility) -> Result<Least, Refusal>
        ensures { Keeps self.old self.new }
    {
        match visibility {
            WrittenVisibility::Module(path) => {
                let id = alloc_module_visibility(self.tables, path)?;
                self.narrowed_to_module(least, id)
            }
            // `pub(in module) | pub(crate)` <= `pub(crate) | pub`.
            WrittenVisibility::PubCrate => match least {
                Least::Public => Ok(Least::PubCrate),
                other => Ok(other),
            },
            WrittenVisibility::Public | WrittenVisibility::PubSelf(_) => Ok(least),
        }
    }

    fn narrowed_to_module(&mut self, least: Least, id: RawVisibilityId) -> Result<Least, Refusal>
        ensures { Keeps self.old self.new }
    {
        match least {
            Least::Public | Least::PubCrate => Ok(Least::Module(id)),
            Least::Module(other) if other == id => Ok(least),
            Least::Module(other) => {
                let first = self.tables.ctor_count();
                self.tables.push_ctor(other)?;
                self.tables.push_ctor(id)?;
                Ok(Least::Modules(first))
            }
            Least::Modules(first) => {
                if !self.is_listed(first, id) {
                    self.tables.push_ctor(id)?;
                }
                Ok(least)
            }
        }
    }

    // Whether the list that begins at `first` and is the last one has this visibility.
    fn is_listed(&self, first: usize, id: RawVisibilityId) -> bool {
        self.tables
            .ctor_visibilities(self.tables.ctors_from(first))
            .is_ok_and(|listed| listed.contains(&id))
    }

    fn ctor_of(&self, least: Least) -> StructValueNsCtor {
        match least {
            Least::Public => StructValueNsCtor::ValueNsCtorWithVis(RawVisibilityId::PUB),
            Least::PubCrate => StructValueNsCtor::ValueNsCtorWithVis(RawVisibilityId::PUB_CRATE),
            Least::Module(id) => StructValueNsCtor::ValueNsCtorWithVis(id),
            Least::Modules(first) => {
                StructValueNsCtor::ValueNsCtorWithMinVis(self.tables.ctors_from(first))
            }
        }
    }
}

// The number of a private visibility.
fn private_id(explicitness: VisibilityExplicitness) -> RawVisibilityId
    ensures { (rows : List RawVisibility) → visibility_at rows result.number ≡ Some (Private explicitness) }
{
    if explicitness.is_explicit() {
        RawVisibilityId::PRIV_EXPLICIT
    } else {
        RawVisibilityId::PRIV_IMPLICIT
    }
}
