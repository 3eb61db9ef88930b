// The text of each kind of item.
ghost use Rattle.std.specs.Prelude.{◌≡◌};

use crate::printer::Printer;
use items::ids::{FileAstId, ModItemId, RawVisibilityId};
use items::records::{Const, ExternCrate, ItemIds, MacroCall, MacroRules, ModKind, Use};
use items::rows::{BigModItem, ModItem, SmallModItem};
use lower::use_tree::MAX_USE_DEPTH;
use page::indent::{Indent, Indented};
use paths::name::Name;
use syntax::refusal::Refusal;
use syntax::source::SyntaxSource;

// An item whose text is its visibility, a word, its name and an ending.
#[derive(Clone, Copy)]
struct Named {
    visibility: RawVisibilityId,
    word: &'static [u8],
    name: Name,
    ending: &'static [u8],
}

impl Named {
    fn new(
        visibility: RawVisibilityId,
        word: &'static [u8],
        name: Name,
        ending: &'static [u8],
    ) -> Named {
        Named {
            visibility,
            word,
            name,
            ending,
        }
    }
}

impl<S: SyntaxSource> Printer<'_, '_, '_, S> {
    fn print_named(&mut self, indent: &Indent, id: FileAstId, named: Named) -> Result<(), Refusal> {
        self.print_ast_id(indent, id);
        self.print_visibility(indent, named.visibility)?;
        self.out.say(indent, named.word);
        self.print_name(indent, named.name)?;
        self.out.say(indent, named.ending);
        Ok(())
    }

    fn print_nameless(&mut self, indent: &Indent, id: FileAstId, text: &[u8]) {
        self.print_ast_id(indent, id);
        self.out.say(indent, text);
    }

    fn print_use(&mut self, indent: &Indent, id: FileAstId, item: Use) -> Result<(), Refusal> {
        self.print_ast_id(indent, id);
        self.print_visibility(indent, item.visibility)?;
        self.out.say(indent, b"use ");
        let _ = self.print_use_tree(indent, item.use_tree.first, MAX_USE_DEPTH)?;
        self.out.say(indent, b";\n");
        Ok(())
    }

    fn print_extern_crate(
        &mut self,
        indent: &Indent,
        id: FileAstId,
        item: ExternCrate,
    ) -> Result<(), Refusal> {
        self.print_ast_id(indent, id);
        self.print_visibility(indent, item.visibility)?;
        self.out.say(indent, b"extern crate ");
        self.print_name(indent, item.name)?;
        self.print_rename(indent, item.alias)?;
        self.out.say(indent, b";\n");
        Ok(())
    }

    fn print_const(&mut self, indent: &Indent, id: FileAstId, item: Const) -> Result<(), Refusal> {
        self.print_ast_id(indent, id);
        self.print_visibility(indent, item.visibility)?;
        self.out.say(indent, b"const ");
        match item.name {
            Some(name) => self.print_name(indent, name)?,
            None => self.out.say(indent, b"_"),
        }
        self.out.say(indent, b" = _;\n");
        Ok(())
    }

    fn print_macro_call(
        &mut self,
        indent: &Indent,
        id: FileAstId,
        item: MacroCall,
    ) -> Result<(), Refusal> {
        self.out.say(indent, b"// AstId: ");
        self.out.number(indent, id.node);
        self.out.say(indent, b", SyntaxContextId: ");
        self.out.number(indent, item.ctxt.number);
        self.out.say(indent, b", ExpandTo: ");
        self.out.say(indent, item.expand.as_str().as_bytes());
        self.out.say(indent, b"\n");
        self.print_path(indent, item.path)?;
        self.out.say(indent, b"!(...);\n");
        Ok(())
    }

    fn print_macro_rules(
        &mut self,
        indent: &Indent,
        id: FileAstId,
        item: MacroRules,
    ) -> Result<(), Refusal> {
        self.print_ast_id(indent, id);
        self.out.say(indent, b"macro_rules! ");
        self.print_name(indent, item.name)?;
        self.out.say(indent, b" { ... }\n");
        Ok(())
    }

    // The text of a small item, up to the brace where items follow.
    fn print_small(
        &mut self,
        indent: &Indent,
        id: FileAstId,
        item: SmallModItem,
    ) -> Result<(), Refusal> {
        let named = match item {
            SmallModItem::Function(it) => Named::new(it.visibility, b"fn ", it.name, b";\n"),
            SmallModItem::Union(it) => Named::new(it.visibility, b"union ", it.name, b" { ... }\n"),
            SmallModItem::Enum(it) => Named::new(it.visibility, b"enum ", it.name, b" { ... }\n"),
            SmallModItem::Static(it) => Named::new(it.visibility, b"static ", it.name, b" = _;\n"),
            SmallModItem::Trait(it) => Named::new(it.visibility, b"trait ", it.name, b" { ... }"),
            SmallModItem::TypeAlias(it) => Named::new(it.visibility, b"type ", it.name, b";\n"),
            SmallModItem::Macro2(it) => {
                Named::new(it.visibility, b"macro ", it.name, b" { ... }\n")
            }
            SmallModItem::Const(it) => return self.print_const(indent, id, it),
            SmallModItem::MacroCall(it) => return self.print_macro_call(indent, id, it),
            SmallModItem::MacroRules(it) => return self.print_macro_rules(indent, id, it),
            SmallModItem::Impl(_) => return Ok(self.print_nameless(indent, id, b"impl { ... }")),
            SmallModItem::ExternBlock(_) => return Ok(self.print_nameless(indent, id, b"extern {")),
        };
        self.print_named(indent, id, named)
    }

    // The text of a big item, up to the brace where items follow.
    fn print_big(
        &mut self,
        indent: &Indent,
        id: FileAstId,
        item: BigModItem,
    ) -> Result<(), Refusal> {
        match item {
            BigModItem::Struct(it) => {
                let named = Named::new(it.visibility, b"struct ", it.name, b" { ... }\n");
                self.print_named(indent, id, named)
            }
            BigModItem::Mod(it) => {
                let ending = match it.kind {
                    ModKind::Inline { .. } => b" {",
                    ModKind::Outline => b";\n",
                };
                self.print_named(
                    indent,
                    id,
                    Named::new(it.visibility, b"mod ", it.name, ending),
                )
            }
            BigModItem::Use(it) => self.print_use(indent, id, it),
            BigModItem::ExternCrate(it) => self.print_extern_crate(indent, id, it),
        }
    }

    // An item with its attributes and the items inside it, which stand at most `depth` levels down.
    #[cycle(print_inside_print_mod_item)]
    pub(crate) fn print_mod_item(
        &mut self,
        indent: &mut Indent,
        id: ModItemId,
        depth: u32,
    ) -> Result<(), Refusal>
        ensures { indent.new.level ≡ indent.old.level }
    {
        if let Some(attrs) = self.tree.attrs(id)? {
            self.print_attrs(indent, attrs, b"#[")?;
        }
        let row = self.tree.index(id)?;
        match row.item {
            ModItem::Small(item) => self.print_small(indent, row.id, item)?,
            ModItem::Big(item) => self.print_big(indent, row.id, item)?,
        }
        if let Some(items) = row.item.children() {
            self.print_inside(indent, items, depth)?;
            self.out.trim();
            self.out.say(indent, b"}\n");
        }
        self.out.blank();
        Ok(())
    }

    // The items between braces, one level deeper.
    #[cycle(print_inside_print_mod_item)]
    fn print_inside(
        &mut self,
        indent: &mut Indent,
        items: ItemIds,
        depth: u32,
    ) -> Result<(), Refusal>
        ensures { indent.new.level ≡ indent.old.level }
    {
        // the project's form for the level: a guard whose drop puts it back on every way out
        let before = indent.level;
        let guard = Indented { indent, before };
        guard.indent.level = before.saturating_add(1);
        self.out.say(guard.indent, b"\n");
        if depth == 0 {
            return Ok(());
        }
        let tree = self.tree;
        for id in tree.children(items)? {
            self.print_mod_item(guard.indent, *id, depth - 1)?;
        }
        Ok(())
    }
}
