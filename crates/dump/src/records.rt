// The record of each kind of item.
use crate::dumper::Dumper;
use crate::parts::Dump;
use items::ids::RawVisibilityId;
use items::records::{
    ExternCrate, MacroCall, Mod, ModKind, Struct, StructValueNsCtor, UseTrees, VisibilityIds,
};
use items::rows::{BigModItem, SmallModItem};
use items::use_tree::UseTreeKind;
use syntax::refusal::Refusal;
use syntax::source::SyntaxSource;

impl<S: SyntaxSource> Dumper<'_, '_, '_, '_, S> {
    fn dump_named<D: Dump<S> + Drop>(
        &mut self,
        word: &str,
        name: D,
        visibility: RawVisibilityId,
    ) -> Result<(), Refusal> {
        self.say(word);
        name.dump_to(self)?;
        visibility.dump_to(self)
    }

    fn dump_macro_call(&mut self, item: MacroCall) -> Result<(), Refusal> {
        self.say(" call");
        item.path.dump_to(self)?;
        self.say(format_args!(" {} context {}", item.expand, item.ctxt.number));
        Ok(())
    }

    pub(crate) fn dump_small(&mut self, item: SmallModItem) -> Result<(), Refusal> {
        match item {
            SmallModItem::Function(it) => self.dump_named(" fn", it.name, it.visibility),
            SmallModItem::Union(it) => self.dump_named(" union", it.name, it.visibility),
            SmallModItem::Enum(it) => self.dump_named(" enum", it.name, it.visibility),
            SmallModItem::Static(it) => self.dump_named(" static", it.name, it.visibility),
            SmallModItem::Trait(it) => self.dump_named(" trait", it.name, it.visibility),
            SmallModItem::TypeAlias(it) => self.dump_named(" type", it.name, it.visibility),
            SmallModItem::Macro2(it) => self.dump_named(" macro", it.name, it.visibility),
            SmallModItem::Const(it) => self.dump_named(" const", it.name, it.visibility),
            SmallModItem::MacroCall(it) => self.dump_macro_call(it),
            SmallModItem::MacroRules(it) => {
                self.say(" macro_rules");
                it.name.dump_to(self)
            }
            SmallModItem::Impl(it) => Ok(self.say(if it.of_trait {
                " impl of a trait"
            } else {
                " impl"
            })),
            SmallModItem::ExternBlock(it) => {
                self.say(" extern");
                self.dump_children(it.children)
            }
        }
    }

    pub(crate) fn dump_big(&mut self, item: BigModItem) -> Result<(), Refusal> {
        match item {
            BigModItem::Struct(it) => self.dump_struct(it),
            BigModItem::Mod(it) => self.dump_module(it),
            BigModItem::ExternCrate(it) => self.dump_extern_crate(it),
            BigModItem::Use(it) => {
                self.say(" use");
                it.visibility.dump_to(self)
            }
        }
    }

    fn dump_struct(&mut self, item: Struct) -> Result<(), Refusal> {
        self.dump_named(" struct", item.name, item.visibility)?;
        match item.ctor {
            StructValueNsCtor::NoValueNsCtor => Ok(self.say(" no constructor")),
            StructValueNsCtor::ValueNsCtorWithVis(id) => {
                self.say(" constructor");
                id.dump_to(self)
            }
            StructValueNsCtor::ValueNsCtorWithMinVis(list) => self.dump_ctor_list(list),
        }
    }

    fn dump_ctor_list(&mut self, list: VisibilityIds) -> Result<(), Refusal> {
        self.say(" constructor list");
        for id in self.tables.ctor_visibilities(list)? {
            id.dump_to(self)?;
        }
        Ok(())
    }

    fn dump_module(&mut self, item: Mod) -> Result<(), Refusal> {
        self.dump_named(" mod", item.name, item.visibility)?;
        match item.kind {
            ModKind::Inline { items } => {
                self.say(" inline");
                self.dump_children(items)
            }
            ModKind::Outline => Ok(self.say(" outline")),
        }
    }

    fn dump_extern_crate(&mut self, item: ExternCrate) -> Result<(), Refusal> {
        self.dump_named(" extern crate", item.name, item.visibility)?;
        item.alias.dump_to(self)
    }

    // The use nodes of an item, by their places.
    pub(crate) fn dump_use_trees(&mut self, nodes: UseTrees) -> Result<(), Refusal> {
        for (place, node) in self.tables.use_trees(nodes)?.iter().enumerate() {
            self.say(format_args!("use {place}"));
            self.dump_use_tree(nodes.first, node.kind)?;
            self.say("\n");
        }
        Ok(())
    }

    // A node of a use tree whose first node has the number `first`.
    pub(crate) fn dump_use_tree<P: Dump<S> + Drop>(
        &mut self,
        first: u32,
        node: UseTreeKind<P>,
    ) -> Result<(), Refusal> {
        match node {
            UseTreeKind::Single { path, alias } => {
                self.say(" single");
                path.dump_to(self)?;
                alias.dump_to(self)
            }
            UseTreeKind::Glob { path } => {
                self.say(" glob");
                path.dump_to(self)
            }
            UseTreeKind::Prefixed { prefix, end } => {
                self.say(" group");
                prefix.dump_to(self)?;
                self.say(format_args!(" to {}", end.saturating_sub(first)));
                Ok(())
            }
        }
    }
}
