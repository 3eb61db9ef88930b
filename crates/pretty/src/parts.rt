// The parts of an item's text: names, paths, attributes, visibilities, use trees.
use crate::printer::Printer;
use items::attrs::{Attr, AttrInput, AttrsOrCfg, AttrsOwned};
use items::ids::{FileAstId, RawVisibilityId};
use items::use_tree::{ImportAlias, UseTreeKind};
use items::visibility::RawVisibility;
use page::indent::Indent;
use paths::interned::PathId;
use paths::mod_path::PathKind;
use paths::name::Name;
use syntax::refusal::Refusal;
use syntax::source::SyntaxSource;

impl<S: SyntaxSource> Printer<'_, '_, '_, S> {
    fn print_text(&mut self, indent: &Indent, number: u32) -> Result<(), Refusal> {
        let text = self.source.text(number).ok_or(Refusal::MissingText)?;
        self.out.say(indent, text);
        Ok(())
    }

    pub(crate) fn print_name(&mut self, indent: &Indent, name: Name) -> Result<(), Refusal> {
        match name {
            Name::Text(number) => self.print_text(indent, number),
            Name::Missing => {
                self.out.say(indent, b"[missing name]");
                Ok(())
            }
        }
    }

    // What a path begins with, if its kind has a part of its own; answers whether it has.
    fn print_path_kind(&mut self, indent: &Indent, kind: PathKind) -> bool {
        match kind {
            PathKind::Plain => return false,
            // an empty first part
            PathKind::Abs => {}
            PathKind::Super(count) => self.print_supers(indent, count),
            PathKind::Crate => self.out.say(indent, b"crate"),
            PathKind::DollarCrate => self.out.say(indent, b"$crate"),
        }
        true
    }

    fn print_supers(&mut self, indent: &Indent, count: u32) {
        if count == 0 {
            self.out.say(indent, b"self");
        } else {
            self.out.say(indent, b"super");
        }
        for _ in 1..count {
            self.out.say(indent, b"::super");
        }
    }

    pub(crate) fn print_path(&mut self, indent: &Indent, id: PathId) -> Result<(), Refusal> {
        let tree = self.tree;
        let path = tree.path(id)?;
        let begun = self.print_path_kind(indent, path.kind());
        for (i, name) in tree.names(path).iter().enumerate() {
            if begun || i > 0 {
                self.out.say(indent, b"::");
            }
            self.print_name(indent, *name)?;
        }
        Ok(())
    }

    fn print_alias(&mut self, indent: &Indent, alias: ImportAlias) -> Result<(), Refusal> {
        match alias {
            ImportAlias::Underscore => {
                self.out.say(indent, b"_");
                Ok(())
            }
            ImportAlias::Alias(name) => self.print_name(indent, name),
        }
    }

    // ` as alias`, where there is one.
    pub(crate) fn print_rename(
        &mut self,
        indent: &Indent,
        alias: Option<ImportAlias>,
    ) -> Result<(), Refusal> {
        if let Some(alias) = alias {
            self.out.say(indent, b" as ");
            self.print_alias(indent, alias)?;
        }
        Ok(())
    }

    fn print_attr(&mut self, indent: &Indent, attr: Attr, opening: &[u8]) -> Result<(), Refusal> {
        self.out.say(indent, opening);
        self.print_path(indent, attr.path)?;
        match attr.input {
            Some(AttrInput::Literal(text) | AttrInput::TokenTree(text)) => {
                self.print_text(indent, text)?
            }
            None => {}
        }
        self.out.say(indent, b"]\n");
        Ok(())
    }

    fn print_attr_list(
        &mut self,
        indent: &Indent,
        attrs: AttrsOwned,
        opening: &[u8],
    ) -> Result<(), Refusal> {
        let tree = self.tree;
        for attr in tree.attr_list(attrs)? {
            self.print_attr(indent, *attr, opening)?;
        }
        Ok(())
    }

    // Attributes one to a line; `opening` is `#[`, or `#![` at the top level.
    pub(crate) fn print_attrs(
        &mut self,
        indent: &Indent,
        attrs: AttrsOrCfg,
        opening: &[u8],
    ) -> Result<(), Refusal> {
        match attrs {
            AttrsOrCfg::Enabled { attrs } => self.print_attr_list(indent, attrs, opening),
            AttrsOrCfg::CfgDisabled { cfg, attrs } => {
                self.print_attr_list(indent, attrs, opening)?;
                self.out.say(indent, opening);
                self.out.say(indent, b"cfg(");
                if let Some(text) = cfg.text {
                    self.print_text(indent, text)?;
                }
                self.out.say(indent, b")]\n");
                Ok(())
            }
        }
    }

    pub(crate) fn print_visibility(
        &mut self,
        indent: &Indent,
        id: RawVisibilityId,
    ) -> Result<(), Refusal> {
        match self.tree.raw_visibility(id)? {
            RawVisibility::Module(path, _) => {
                self.out.say(indent, b"pub(in ");
                self.print_path(indent, path)?;
                self.out.say(indent, b") ");
            }
            RawVisibility::Public => self.out.say(indent, b"pub "),
            RawVisibility::PubCrate => self.out.say(indent, b"pub(crate) "),
            RawVisibility::PubSelf(_) => self.out.say(indent, b"pub(self) "),
        }
        Ok(())
    }

    // `path::`, where there is a path.
    fn print_prefix(&mut self, indent: &Indent, prefix: Option<PathId>) -> Result<(), Refusal> {
        if let Some(path) = prefix {
            self.print_path(indent, path)?;
            self.out.say(indent, b"::");
        }
        Ok(())
    }

    // The use node at `at`, with its members `depth` levels down; answers where the next one stands.
    pub(crate) fn print_use_tree(
        &mut self,
        indent: &Indent,
        at: u32,
        depth: u32,
    ) -> Result<u32, Refusal> {
        match self.tree.use_tree(at)?.kind {
            UseTreeKind::Single { path, alias } => {
                self.print_path(indent, path)?;
                self.print_rename(indent, alias)?;
            }
            UseTreeKind::Glob { path } => {
                self.print_prefix(indent, path)?;
                self.out.say(indent, b"*");
            }
            UseTreeKind::Prefixed { prefix, end } => {
                self.print_prefix(indent, prefix)?;
                self.out.say(indent, b"{");
                let first = at.saturating_add(1);
                let mut member = first;
                // the project's form for use trees: recursion with a falling depth, where a member says what comes next
                while member < end && depth > 0 {
                    if member > first {
                        self.out.say(indent, b", ");
                    }
                    let next = self.print_use_tree(indent, member, depth - 1)?;
                    if next <= member {
                        return Err(Refusal::NotFound);
                    }
                    member = next;
                }
                self.out.say(indent, b"}");
                return Ok(end);
            }
        }
        Ok(at.saturating_add(1))
    }

    // The line above each item.
    pub(crate) fn print_ast_id(&mut self, indent: &Indent, id: FileAstId) {
        self.out.say(indent, b"// AstId: ");
        self.out.number(indent, id.node);
        self.out.say(indent, b"\n");
    }
}
