// Collecting the attributes of a node.
ghost use Rattle.std.specs.Prelude.{◌≡◌};
ghost use Rattle.syntax.specs.Children.{StandsIn};
ghost use Rattle.paths.specs.Reading.{meant};
ghost use Rattle.items.specs.Attributes.{attribute_of, text_of};
ghost use Rattle.lower.specs.AttrNodes.{attr_node};
ghost use Rattle.lower.specs.Keeping.{Keeps};

use crate::lowering::Lowering;
use items::attrs::{Attr, AttrInput, AttrsOrCfg, CfgExpr};
use items::ids::SyntaxContext;
use paths::mod_path::ModPath;
use paths::name::Name;
use syntax::kind::SyntaxKind;
use syntax::node::Node;
use syntax::refusal::Refusal;
use syntax::source::SyntaxSource;
use syntax::walk::{NodeRef, child_of_kind, children};

// A text's number, unless it is 0.
fn text_of(node: Node) -> Option<u32>
    ensures { result ≡ text_of node }
{
    (node.text != 0).then_some(node.text)
}

// What an Attr node is.
#[derive(Clone, Copy)]
enum AttrNode {
    // an attribute, with what follows its path
    Attribute(Option<AttrInput>),
    // a true condition
    CfgTrue,
    CfgFalse(CfgExpr),
}

impl From<Node> for AttrNode {
    ghost from_gives = { λ attr result. result ≡ attr_node attr };

    fn from(attr: Node) -> AttrNode {
        match attr.mark {
            1 => AttrNode::Attribute(text_of(attr).map(AttrInput::Literal)),
            2 => AttrNode::Attribute(text_of(attr).map(AttrInput::TokenTree)),
            3 => AttrNode::CfgTrue,
            4 => AttrNode::CfgFalse(CfgExpr {
                text: text_of(attr),
            }),
            _ => AttrNode::Attribute(None),
        }
    }
}

// The path of an attribute, or the missing name's.
// By `and_then` and `unwrap_or_else` a path, which is large, is copied three times over.
fn path_of<S: SyntaxSource>(source: &S, attr: NodeRef) -> ModPath
    ensures { StandsIn (S.SyntaxSource.meaning source.now) attr → meant result ≡ (attribute_of (S.SyntaxSource.meaning source.now) attr).path }
{
    let Some(path) = child_of_kind(source, attr, SyntaxKind::Path) else {
        return ModPath::from_name(Name::Missing);
    };
    match ModPath::from_src(source, path) {
        Some(path) => path,
        None => ModPath::from_name(Name::Missing),
    }
}

impl<S: SyntaxSource> Lowering<'_, '_, S> {
    // The attributes of a node; none where the list is enabled and empty.
    pub fn lower_attrs(&mut self, owner: NodeRef) -> Result<Option<AttrsOrCfg>, Refusal>
        ensures { Keeps self.old self.new }
    {
        let first = self.tables.attr_count();
        let source = self.source;
        for child in children(source, owner) {
            if !child.is(SyntaxKind::Attr) {
                break;
            }
            if let Some(cfg) = self.lower_attr(child)? {
                let attrs = self.tables.attrs_from(first);
                return Ok(Some(AttrsOrCfg::CfgDisabled { cfg, attrs }));
            }
        }
        let attrs = AttrsOrCfg::Enabled {
            attrs: self.tables.attrs_from(first),
        };
        Ok((!attrs.is_empty()).then_some(attrs))
    }

    // Records an attribute; answers a false condition, which ends the list.
    fn lower_attr(&mut self, attr: NodeRef) -> Result<Option<CfgExpr>, Refusal>
        ensures { Keeps self.old self.new }
    {
        match AttrNode::from(attr.node) {
            AttrNode::CfgTrue => Ok(None),
            AttrNode::CfgFalse(cfg) => Ok(Some(cfg)),
            AttrNode::Attribute(input) => {
                let path = self.tables.intern(&path_of(self.source, attr))?;
                let ctxt = SyntaxContext::ROOT;
                self.tables.push_attr(Attr { path, input, ctxt })?;
                Ok(None)
            }
        }
    }
}
