// One record more, with its id.
// The proof does not close with a ghost field in place of the clauses `marked`: a field beside a `&mut TreeTables` lends the tables under another name.
#![tactic(auto, unfolding(crate::specs::Contents::marked_of, crate::specs::Growth::Became, crate::specs::Added::Allocated, crate::specs::Added::Added, crate::specs::Added::AddedAt, crate::specs::Added::PathAdded, crate::specs::Added::VisibilityAdded))]

ghost use Rattle.std.specs.Prelude.{◌≡◌, ◌+◌, ◌<◌, ◌≤◌, ◌++◌, [], ◌∷◌, ◌⊎◌, length, drop, MatchResult};
ghost use Rattle.syntax.specs.declared.refusal.Refusal.TheVariants.{TableFull};
ghost use Rattle.tables.specs.Held.{held, marked};
ghost use Rattle.paths.specs.Kept.{read_path};
ghost use Rattle.tree_tables.specs.Added.{Allocated, Added, AddedAt, HandedOver, PathAdded, VisibilityAdded};
ghost use Rattle.tree_tables.specs.Contents.{empty, held_of, marked_of, shown_of};
ghost use Rattle.tree_tables.specs.Growth.{Became, unchanged, with_top, add_small, add_big, add_attr, add_ctor, add_use, replace_use, copy_ids, move_ids};

use crate::tree::TreeTables;
use items::attrs::{Attr, AttrsOrCfg};
use items::ids::{FileAstId, ModItemId, RawVisibilityId, SyntaxContext};
use items::records::{Impl, ItemIds, Use, UseTrees};
use items::rows::{BigModItem, BigRow, SmallModItem, SmallRow};
use items::use_tree::{UseTree, UseTreeKind};
use items::visibility::{RawVisibility, Visibilities};
use paths::interned::{PathId, Paths};
use paths::mod_path::ModPath;
use syntax::refusal::Refusal;
use tables::table::Table;

const NONE: FileAstId = FileAstId { node: 0 };

// A record, and its id.
fn push_with_id<T: Copy, const N: usize>(
    rows: &mut Table<T, N>,
    row: T,
    ids: &mut Table<ModItemId, 768>,
    id: ModItemId,
) -> Result<(), Refusal>
    ensures pushes { MatchResult result (λ _. (length (held rows.old) < N) × (length (held ids.old) < 768) × (held rows.new ≡ held rows.old ++ row ∷ []) × (held ids.new ≡ held ids.old ++ id ∷ [])) (λ e. (e ≡ TableFull) × ((length (held rows.old) ≡ N) ⊎ (length (held ids.old) ≡ 768))) }
    ensures rows { marked rows.new ≡ marked rows.old }
    ensures ids { marked ids.new ≡ marked ids.old }
{
    let _ = rows.push(row)?;
    let _ = ids.push(id)?;
    Ok(())
}

impl TreeTables {
    // Tables that hold nothing.
    pub fn new() -> TreeTables
        ensures { held_of result ≡ empty }
    {
        let small = SmallRow {
            id: NONE,
            item: SmallModItem::Impl(Impl { of_trait: false }),
            attrs: None,
        };
        let big = BigRow {
            id: NONE,
            item: BigModItem::Use(Use {
                visibility: RawVisibilityId::PUB,
                use_tree: UseTrees::new(0, 0),
            }),
            attrs: None,
        };
        TreeTables {
            small: Table::new(small),
            big: Table::new(big),
            ids: Table::new(ModItemId::TOP_OWNER),
            children: Table::new(ModItemId::TOP_OWNER),
            attrs: Table::new(Attr {
                path: PathId::FIRST,
                input: None,
                ctxt: SyntaxContext::ROOT,
            }),
            top: None,
            visibilities: Visibilities::new(),
            ctors: Table::new(RawVisibilityId::PUB),
            uses: Table::new(UseTree {
                kind: UseTreeKind::Glob { path: None },
            }),
            paths: Paths::new(),
        }
    }

    // The attributes of the top level.
    pub fn set_top(&mut self, top: Option<AttrsOrCfg>)
        ensures sets { Became self.old self.new (with_top top) }
        ensures marked { marked_of self.new ≡ with_top top (marked_of self.old) }
    {
        self.top = top;
    }

    pub fn alloc_small(&mut self, row: SmallRow) -> Result<(), Refusal>
        ensures allocates { Allocated (length (shown_of self.old).small) 512 (add_small row) self.old self.new result }
        ensures marked { marked_of self.new ≡ marked_of self.old }
    {
        let id = ModItemId::new_small(self.small.len() as u32)?;
        push_with_id(&mut self.small, row, &mut self.ids, id)
    }

    pub fn alloc_big(&mut self, row: BigRow) -> Result<(), Refusal>
        ensures allocates { Allocated (length (shown_of self.old).big) 256 (add_big row) self.old self.new result }
        ensures marked { marked_of self.new ≡ marked_of self.old }
    {
        let id = ModItemId::new_big(self.big.len() as u32)?;
        push_with_id(&mut self.big, row, &mut self.ids, id)
    }

    // Hands the ids from `from` on over to a node that closes.
    pub fn alloc_children(&mut self, from: usize) -> Result<ItemIds, Refusal>
        ensures past { length (marked_of self.old).ids ≤ from → HandedOver from (move_ids from) self.old self.new result }
        ensures before { from < length (marked_of self.old).ids → HandedOver from (copy_ids from) self.old self.new result }
        ensures marked { marked_of self.new ≡ marked_of self.old }
    {
        let first = self.children.len();
        let ids = self.ids.as_slice();
        self.children
            .extend_from_slice(&ids[from.min(ids.len())..])?;
        self.ids.truncate(from);
        Ok(self.children.part_from(first))
    }

    // The number of a path.
    pub fn intern(&mut self, path: &ModPath) -> Result<PathId, Refusal>
        ensures interns { PathAdded (read_path path.now) self.old self.new result }
        ensures marked { marked_of self.new ≡ marked_of self.old }
    {
        self.paths.intern(path)
    }

    // The number of a module visibility.
    pub fn record_visibility(
        &mut self,
        visibility: RawVisibility,
    ) -> Result<RawVisibilityId, Refusal>
        ensures records { VisibilityAdded visibility self.old self.new result }
        ensures marked { marked_of self.new ≡ marked_of self.old }
    {
        self.visibilities.record(visibility)
    }

    // One visibility more in the last constructor's list.
    pub fn push_ctor(&mut self, id: RawVisibilityId) -> Result<(), Refusal>
        ensures pushes { Added (length (shown_of self.old).ctors) 256 (add_ctor id) self.old self.new result }
        ensures marked { marked_of self.new ≡ marked_of self.old }
    {
        let _ = self.ctors.push(id)?;
        Ok(())
    }

    pub fn push_attr(&mut self, attr: Attr) -> Result<(), Refusal>
        ensures pushes { Added (length (shown_of self.old).attrs) 512 (add_attr attr) self.old self.new result }
        ensures marked { marked_of self.new ≡ marked_of self.old }
    {
        let _ = self.attrs.push(attr)?;
        Ok(())
    }

    // One use node more, and where it stands.
    pub fn push_use(&mut self, kind: UseTreeKind) -> Result<usize, Refusal>
        ensures pushes { AddedAt (length (shown_of self.old).uses) 1024 (add_use kind) self.old self.new result }
        ensures marked { marked_of self.new ≡ marked_of self.old }
    {
        self.uses.push(UseTree { kind })
    }

    // Puts another use node where one stands that was lowered in this call.
    pub fn replace_use(&mut self, place: usize, kind: UseTreeKind)
        ensures past { length (marked_of self.old).uses ≤ place → Became self.old self.new (replace_use place kind) }
        ensures before { place < length (marked_of self.old).uses → Became self.old self.new unchanged }
        ensures marked { marked_of self.new ≡ marked_of self.old }
    {
        self.uses.replace(place, UseTree { kind });
    }
}
