// A tree that is read.
ghost use Rattle.std.specs.Prelude.{◌≡◌, ◌≤◌, length, Some, None, MatchResult};
ghost use Rattle.syntax.specs.declared.refusal.Refusal.TheVariants.{NotFound as NothingThere};
ghost use Rattle.tree_tables.specs.Contents.{held_of};
ghost use Rattle.tree_tables.specs.Reading.{index_of, attrs_of};

use crate::lowering::Ctx;
use imports::expand::expand;
use imports::import::Import;
use imports::lists::Lengths;
use items::attrs::AttrsOrCfg;
use items::ids::ModItemId;
use items::rows::{BigModItem, IndexedItem, ModItem};
use paths::name::Name;
use syntax::refusal::Refusal;
use tree_tables::tree::TreeTables;

#[derive(Drop)]
pub struct ItemTree {
    ctx: Ctx,
}

impl Ctx {
    // Closes the tree: no item is added any more, and it can be read.
    pub fn finalize(self) -> ItemTree
        ensures { result.ctx ≡ self }
    {
        ItemTree { ctx: self }
    }
}

impl ItemTree {
    // The ids of the top level, in order.
    pub fn top_level_items(&self) -> &[ModItemId]
        ensures { result.now ≡ (held_of self.now.ctx.tree).ids }
    {
        self.ctx.tree.top_level_items()
    }

    // The attributes of the file itself; none where the list is enabled and empty.
    pub fn top_level_attrs(&self) -> Option<AttrsOrCfg>
        ensures { result ≡ (held_of self.now.ctx.tree).top }
    {
        self.ctx.tree.top_level_attrs()
    }

    // The record that an id names.
    pub fn index(&self, id: ModItemId) -> Result<IndexedItem, Refusal>
        ensures { MatchResult result (λ x. index_of (held_of self.now.ctx.tree) id ≡ Some x) (λ e. (e ≡ NothingThere) × (index_of (held_of self.now.ctx.tree) id ≡ None)) }
    {
        self.ctx.tree.index(id)
    }

    // The attributes of an item, or of the file at `TOP_OWNER`; none where the list is enabled and empty.
    pub fn attrs(&self, of: ModItemId) -> Result<Option<AttrsOrCfg>, Refusal>
        ensures { MatchResult result (λ x. attrs_of (held_of self.now.ctx.tree) of ≡ Some x) (λ e. (e ≡ NothingThere) × (attrs_of (held_of self.now.ctx.tree) of ≡ None)) }
    {
        self.ctx.tree.attrs(of)
    }

    // The imports of a use item and the names of their paths, from the front of two lists; answers their lengths.
    pub fn expand(
        &self,
        id: ModItemId,
        imports: &mut [Import],
        names: &mut [Name],
    ) -> Result<Lengths, Refusal>
        ensures { MatchResult result (λ n. (n.imports ≤ length imports.old) × (n.names ≤ length names.old)) (λ _. (imports.new ≡ imports.old) × (names.new ≡ names.old)) }
    {
        let ModItem::Big(BigModItem::Use(it)) = self.index(id)?.item else {
            return Err(Refusal::NotFound);
        };
        expand(&self.ctx.tree, it.use_tree, imports, names)
    }

    // The tables, for those who print them.
    pub fn tables(&self) -> &TreeTables
        ensures { result.now ≡ self.now.ctx.tree }
    {
        &self.ctx.tree
    }
}
