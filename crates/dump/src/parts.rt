// Names, paths, visibilities, attributes: each begins with a space.
use crate::dumper::Dumper;
use items::attrs::{Attr, AttrInput, AttrsOrCfg};
use items::ids::RawVisibilityId;
use items::records::ItemIds;
use items::use_tree::ImportAlias;
use items::visibility::{RawVisibility, VisibilityExplicitness};
use page::sink::Sink;
use paths::interned::PathId;
use paths::mod_path::{ModPath, PathKind};
use paths::name::Name;
use syntax::refusal::Refusal;
use syntax::source::SyntaxSource;

static DIGITS: [u8; 16] = *b"0123456789abcdef";

// A byte of a text: one that does not print stands as a backslash and two digits.
// Through a formatter a long text takes four times as long.
fn quote_byte(out: &mut Sink, byte: u8) {
    if byte < 32 || byte > 126 || byte == b'"' || byte == b'\\' {
        out.put(b'\\');
        out.put(DIGITS[(byte / 16) as usize]);
        out.put(DIGITS[(byte % 16) as usize]);
    } else {
        out.put(byte);
    }
}

// A text between quotes.
fn quote(out: &mut Sink, text: &[u8]) {
    out.put(b'"');
    for byte in text {
        quote_byte(out, *byte);
    }
    out.put(b'"');
}

// What a record is made of.
pub(crate) trait Dump<S: SyntaxSource> {
    fn dump_to(self, dumper: &mut Dumper<'_, '_, '_, '_, S>) -> Result<(), Refusal>;
}

impl<S: SyntaxSource, D: Dump<S> + Drop> Dump<S> for Option<D> {
    fn dump_to(self, dumper: &mut Dumper<'_, '_, '_, '_, S>) -> Result<(), Refusal> {
        match self {
            Some(part) => part.dump_to(dumper),
            None => Ok(dumper.say(" -")),
        }
    }
}

impl<S: SyntaxSource> Dump<S> for Name {
    fn dump_to(self, dumper: &mut Dumper<'_, '_, '_, '_, S>) -> Result<(), Refusal> {
        match self {
            Name::Text(number) => dumper.dump_text(" ", number),
            Name::Missing => Ok(dumper.say(" [missing name]")),
        }
    }
}

impl<S: SyntaxSource> Dump<S> for PathId {
    fn dump_to(self, dumper: &mut Dumper<'_, '_, '_, '_, S>) -> Result<(), Refusal> {
        let tables = dumper.tables;
        let path = tables.path(self)?;
        dumper.dump_path(path.kind(), tables.names(path))
    }
}

impl<S: SyntaxSource> Dump<S> for ModPath {
    fn dump_to(self, dumper: &mut Dumper<'_, '_, '_, '_, S>) -> Result<(), Refusal> {
        dumper.dump_path(self.kind(), self.names())
    }
}

impl<S: SyntaxSource> Dump<S> for ImportAlias {
    fn dump_to(self, dumper: &mut Dumper<'_, '_, '_, '_, S>) -> Result<(), Refusal> {
        dumper.say(" as");
        match self {
            ImportAlias::Underscore => Ok(dumper.say(" _")),
            ImportAlias::Alias(name) => name.dump_to(dumper),
        }
    }
}

impl<S: SyntaxSource> Dump<S> for RawVisibility {
    fn dump_to(self, dumper: &mut Dumper<'_, '_, '_, '_, S>) -> Result<(), Refusal> {
        match self {
            RawVisibility::Public => Ok(dumper.say(" public")),
            RawVisibility::PubCrate => Ok(dumper.say(" crate")),
            RawVisibility::PubSelf(VisibilityExplicitness::Explicit) => Ok(dumper.say(" self")),
            RawVisibility::PubSelf(VisibilityExplicitness::Implicit) => Ok(dumper.say(" private")),
            RawVisibility::Module(path, VisibilityExplicitness::Explicit) => {
                dumper.say(" in");
                path.dump_to(dumper)
            }
            RawVisibility::Module(path, VisibilityExplicitness::Implicit) => {
                dumper.say(" implicitly in");
                path.dump_to(dumper)
            }
        }
    }
}

impl<S: SyntaxSource> Dump<S> for RawVisibilityId {
    fn dump_to(self, dumper: &mut Dumper<'_, '_, '_, '_, S>) -> Result<(), Refusal> {
        let visibility = dumper.tables.raw_visibility(self)?;
        visibility.dump_to(dumper)
    }
}

impl<S: SyntaxSource> Dump<S> for AttrInput {
    fn dump_to(self, dumper: &mut Dumper<'_, '_, '_, '_, S>) -> Result<(), Refusal> {
        match self {
            AttrInput::Literal(text) => dumper.dump_text(" literal ", text),
            AttrInput::TokenTree(text) => dumper.dump_text(" tokens ", text),
        }
    }
}

impl<S: SyntaxSource> Dumper<'_, '_, '_, '_, S> {
    // The text of a number between quotes, after a word.
    fn dump_text(&mut self, word: &str, number: u32) -> Result<(), Refusal> {
        let text = self.source.text(number).ok_or(Refusal::MissingText)?;
        self.out.say(word.as_bytes());
        quote(self.out, text);
        Ok(())
    }

    // A path by its kind and its names.
    pub(crate) fn dump_path(&mut self, kind: PathKind, names: &[Name]) -> Result<(), Refusal> {
        match kind {
            PathKind::Plain => self.say(" (plain"),
            PathKind::Super(count) => self.say(format_args!(" (super {count}")),
            PathKind::Crate => self.say(" (crate"),
            PathKind::Abs => self.say(" (abs"),
            PathKind::DollarCrate => self.say(" ($crate"),
        }
        for name in names {
            name.dump_to(self)?;
        }
        self.say(")");
        Ok(())
    }

    // The ids of the items inside a module or an extern block.
    pub(crate) fn dump_children(&mut self, items: ItemIds) -> Result<(), Refusal> {
        for id in self.tables.children(items)? {
            self.say(format_args!(" {}", id.index));
        }
        Ok(())
    }

    fn dump_attr(&mut self, attr: Attr) -> Result<(), Refusal> {
        self.say("attribute");
        attr.path.dump_to(self)?;
        attr.input.dump_to(self)?;
        self.say(format_args!(" context {}\n", attr.ctxt.number));
        Ok(())
    }

    // One line for each attribute, and one for a false condition.
    pub(crate) fn dump_attrs(&mut self, attrs: AttrsOrCfg) -> Result<(), Refusal> {
        for attr in self.tables.attr_list(attrs.part())? {
            self.dump_attr(*attr)?;
        }
        if let AttrsOrCfg::CfgDisabled { cfg, .. } = attrs {
            match cfg.text {
                Some(text) => self.dump_text("disabled ", text)?,
                None => self.say("disabled \"\""),
            }
            self.say("\n");
        }
        Ok(())
    }
}
