// A whole tree: its top level, each record by id, its visibilities by number.
use crate::dumper::{Dumper, Extent};
use crate::parts::Dump;
use item_tree::tree::ItemTree;
use items::ids::{ModItemId, RawVisibilityId};
use items::rows::{BigModItem, IndexedItem, ModItem};
use syntax::refusal::Refusal;
use syntax::source::SyntaxSource;

// No tree has as many records of one size, or as many visibilities.
const MOST: u32 = 1_024;

impl<S: SyntaxSource> Dumper<'_, '_, '_, '_, S> {
    pub(crate) fn dump_tree(&mut self, tree: &ItemTree) -> Result<(), Refusal> {
        self.dump_top(tree);
        if let Some(attrs) = tree.attrs(ModItemId::TOP_OWNER)? {
            self.dump_attrs(attrs)?;
        }
        self.dump_items(tree, ModItemId::new_small)?;
        self.dump_items(tree, ModItemId::new_big)?;
        self.dump_visibilities()
    }

    fn dump_top(&mut self, tree: &ItemTree) {
        self.say("top");
        for id in tree.top_level_items() {
            self.say(format_args!(" {}", id.index));
        }
        self.say("\n");
    }

    // The small items or the big ones, up to the first id that names nothing.
    fn dump_items<F: Fn(u32) -> Result<ModItemId, Refusal>>(
        &mut self,
        tree: &ItemTree,
        id_of: F,
    ) -> Result<(), Refusal>
        requires { F.IsAlwaysCallable id_of }
    {
        let items = (0..MOST).map_while(|row| {
            let id = id_of(row).ok()?;
            Some((id, tree.index(id).ok()?))
        });
        for (id, item) in items {
            self.dump_item(tree, id, item)?;
        }
        Ok(())
    }

    fn dump_item(
        &mut self,
        tree: &ItemTree,
        id: ModItemId,
        item: IndexedItem,
    ) -> Result<(), Refusal> {
        self.say(format_args!("item {} node {}", id.index, item.id.node));
        match item.item {
            ModItem::Small(record) => self.dump_small(record)?,
            ModItem::Big(record) => self.dump_big(record)?,
        }
        self.say("\n");
        if let ModItem::Big(BigModItem::Use(it)) = item.item {
            self.dump_use_trees(it.use_tree)?;
            if self.extent == Extent::Whole {
                self.dump_imports(tree, id)?;
            }
        }
        if let Some(attrs) = tree.attrs(id)? {
            self.dump_attrs(attrs)?;
        }
        Ok(())
    }

    // The module visibilities, up to the first number that names nothing.
    fn dump_visibilities(&mut self) -> Result<(), Refusal> {
        let tables = self.tables;
        let visibilities = (0..MOST)
            .map_while(|number| tables.raw_visibility(RawVisibilityId { number }).ok())
            .enumerate();
        for (number, visibility) in visibilities {
            self.say(format_args!("visibility {number}"));
            visibility.dump_to(self)?;
            self.say("\n");
        }
        Ok(())
    }
}
