// Reading the tables.
ghost use Rattle.std.specs.Option.{option_map};
ghost use Rattle.std.specs.Prelude.{◌≡◌, ◌≤◌, length, Some, None, MatchResult};
ghost use Rattle.syntax.specs.Meaning.{at};
ghost use Rattle.syntax.specs.declared.refusal.Refusal.TheVariants.{NotFound as NothingThere};
ghost use Rattle.paths.specs.Kept.{shown};
ghost use Rattle.items.specs.Visible.{visibility_at};
ghost use Rattle.tree_tables.specs.Contents.{held_of, shown_of};
ghost use Rattle.tree_tables.specs.Numbers.{path_at};
ghost use Rattle.tree_tables.specs.Reading.{Listed, NotListed, From, index_of, indexed, attrs_of, row_attrs};

use crate::tree::TreeTables;
use items::attrs::{Attr, AttrsOrCfg, AttrsOwned};
use items::ids::{ModItemId, RawVisibilityId};
use items::records::{ItemIds, UseTrees, VisibilityIds};
use items::rows::{IndexedItem, ModItem, Row};
use items::use_tree::UseTree;
use items::visibility::RawVisibility;
use paths::interned::{InternedPath, PathId};
use paths::name::Name;
use syntax::refusal::Refusal;

impl TreeTables {
    // The items of the top level, while no node is open.
    pub fn top_level_items(&self) -> &[ModItemId]
        ensures { result.now ≡ (held_of self.now).ids }
    {
        self.ids.as_slice()
    }

    // The attributes of the top level.
    pub fn top_level_attrs(&self) -> Option<AttrsOrCfg>
        ensures { result ≡ (held_of self.now).top }
    {
        self.top
    }

    // The row of an id.
    fn row(&self, id: ModItemId) -> Option<Row<ModItem>>
        ensures index { option_map indexed result ≡ index_of (held_of self.now) id }
        ensures attrs { option_map (λ row. row.attrs) result ≡ row_attrs (held_of self.now) id }
    {
        if id.is_small() {
            let row = self.small.get(id.row())?;
            Some(row.map(ModItem::Small))
        } else {
            let row = self.big.get(id.row())?;
            Some(row.map(ModItem::Big))
        }
    }

    // The record that an id names.
    pub fn index(&self, id: ModItemId) -> Result<IndexedItem, Refusal>
        ensures { MatchResult result (λ x. index_of (held_of self.now) id ≡ Some x) (λ e. (e ≡ NothingThere) × (index_of (held_of self.now) id ≡ None)) }
    {
        let row = self.row(id).ok_or(Refusal::NotFound)?;
        Ok(IndexedItem {
            id: row.id,
            item: row.item,
        })
    }

    // The attributes of an item or of the top level; none where the list is enabled and empty.
    pub fn attrs(&self, of: ModItemId) -> Result<Option<AttrsOrCfg>, Refusal>
        ensures { MatchResult result (λ x. attrs_of (held_of self.now) of ≡ Some x) (λ e. (e ≡ NothingThere) × (attrs_of (held_of self.now) of ≡ None)) }
    {
        if of == ModItemId::TOP_OWNER {
            return Ok(self.top);
        }
        let row = self.row(of).ok_or(Refusal::NotFound)?;
        Ok(row.attrs)
    }

    // The attributes of a list.
    pub fn attr_list(&self, list: AttrsOwned) -> Result<&[Attr], Refusal>
        ensures { MatchResult result (λ rows. Listed (held_of self.now).attrs list rows.now) (NotListed (held_of self.now).attrs list) }
    {
        self.attrs.part(list).ok_or(Refusal::NotFound)
    }

    // The items inside a module or an extern block.
    pub fn children(&self, items: ItemIds) -> Result<&[ModItemId], Refusal>
        ensures { MatchResult result (λ rows. Listed (held_of self.now).children items rows.now) (NotListed (held_of self.now).children items) }
    {
        self.children.part(items).ok_or(Refusal::NotFound)
    }

    // The use node of a number.
    pub fn use_tree(&self, number: u32) -> Result<UseTree, Refusal>
        ensures { MatchResult result (λ x. at (held_of self.now).uses number ≡ Some x) (λ e. (e ≡ NothingThere) × (at (held_of self.now).uses number ≡ None)) }
    {
        self.uses.get(number as usize).ok_or(Refusal::NotFound)
    }

    // The nodes of a use item.
    pub fn use_trees(&self, nodes: UseTrees) -> Result<&[UseTree], Refusal>
        ensures { MatchResult result (λ rows. Listed (held_of self.now).uses nodes rows.now) (NotListed (held_of self.now).uses nodes) }
    {
        self.uses.part(nodes).ok_or(Refusal::NotFound)
    }

    // The nodes of all use items.
    pub fn uses(&self) -> &[UseTree]
        ensures rows { result.now ≡ (held_of self.now).uses }
        ensures bound { length result.now ≤ 1024 }
    {
        self.uses.as_slice()
    }

    // The members of all constructors' lists.
    pub fn ctors(&self) -> &[RawVisibilityId]
        ensures rows { result.now ≡ (held_of self.now).ctors }
        ensures bound { length result.now ≤ 256 }
    {
        self.ctors.as_slice()
    }

    // The members of a constructor's list.
    pub fn ctor_visibilities(&self, list: VisibilityIds) -> Result<&[RawVisibilityId], Refusal>
        ensures { MatchResult result (λ rows. Listed (held_of self.now).ctors list rows.now) (NotListed (held_of self.now).ctors list) }
    {
        self.ctors.part(list).ok_or(Refusal::NotFound)
    }

    pub fn raw_visibility(&self, id: RawVisibilityId) -> Result<RawVisibility, Refusal>
        ensures { MatchResult result (λ x. visibility_at (held_of self.now).visibilities id.number ≡ Some x) (λ e. (e ≡ NothingThere) × (visibility_at (held_of self.now).visibilities id.number ≡ None)) }
    {
        self.visibilities.get(id).ok_or(Refusal::NotFound)
    }

    // The path of a number: its kind, and how many names it has.
    pub fn path(&self, id: PathId) -> Result<InternedPath, Refusal>
        ensures { MatchResult result (λ path. (path_at (shown_of self.now) id ≡ Some (shown self.now.paths path)) × (path.names.count ≡ length (shown self.now.paths path).names)) (λ e. (e ≡ NothingThere) × (path_at (shown_of self.now) id ≡ None)) }
    {
        self.paths.get(id).ok_or(Refusal::NotFound)
    }

    // The name at an index of a path.
    pub fn segment(&self, path: InternedPath, index: u32) -> Result<Name, Refusal>
        ensures { MatchResult result (λ name. at (shown self.now.paths path).names index ≡ Some name) (λ e. (e ≡ NothingThere) × (at (shown self.now.paths path).names index ≡ None)) }
    {
        self.paths.segment(path, index).ok_or(Refusal::NotFound)
    }

    // The id at a place of the top level.
    pub fn id_at(&self, place: usize) -> Option<ModItemId>
        ensures { result ≡ at (held_of self.now).ids place }
    {
        self.ids.get(place)
    }

    // Where the id of the next item goes.
    pub fn next_id_place(&self) -> usize
        ensures { (result ≡ length (held_of self.now).ids) × (result ≤ 768) }
    {
        self.ids.len()
    }

    pub fn use_count(&self) -> usize
        ensures value { result ≡ length (held_of self.now).uses }
        ensures bound { result ≤ 1024 }
    {
        self.uses.len()
    }

    pub fn attr_count(&self) -> usize
        ensures value { result ≡ length (held_of self.now).attrs }
        ensures bound { result ≤ 512 }
    {
        self.attrs.len()
    }

    pub fn ctor_count(&self) -> usize
        ensures value { result ≡ length (held_of self.now).ctors }
        ensures bound { result ≤ 256 }
    {
        self.ctors.len()
    }

    // The use nodes from a place on.
    pub fn uses_from(&self, place: usize) -> UseTrees
        ensures { From (held_of self.now).uses place result }
    {
        self.uses.part_from(place)
    }

    // The attributes from a place on.
    pub fn attrs_from(&self, place: usize) -> AttrsOwned
        ensures { From (held_of self.now).attrs place result }
    {
        self.attrs.part_from(place)
    }

    // The constructors' visibilities from a place on.
    pub fn ctors_from(&self, place: usize) -> VisibilityIds
        ensures { From (held_of self.now).ctors place result }
    {
        self.ctors.part_from(place)
    }
}
