// The small items without children, each lowered to its record or passed over.
// Each takes its name by `let .. else` where the Rust takes it, before or after the visibility is recorded (docs/DECISIONS.md, 8).
ghost use Rattle.std.specs.Prelude.{◌≡◌, nat_eq};
ghost use Rattle.std.specs.Option.{option_map};
ghost use Rattle.paths.specs.Names.{name_of};
ghost use Rattle.items.specs.declared.rows.SmallModItem.TheVariants.{Impl as ImplItem, MacroRules as MacroRulesItem};
ghost use Rattle.lower.specs.Keeping.{Keeps};

use crate::lowering::Lowering;
use items::ids::SyntaxContext;
use items::records::{
    Const, Enum, ExpandTo, Function, Impl, Macro2, MacroCall, MacroRules, Static, Trait, TypeAlias,
    Union,
};
use items::rows::SmallModItem;
use paths::mod_path::ModPath;
use paths::name::Name;
use syntax::kind::SyntaxKind;
use syntax::refusal::Refusal;
use syntax::source::SyntaxSource;
use syntax::walk::{NodeRef, child_of_kind};

impl<S: SyntaxSource> Lowering<'_, '_, S> {
    pub fn lower_union(&mut self, union: NodeRef) -> Result<Option<SmallModItem>, Refusal>
        ensures { Keeps self.old self.new }
    {
        let visibility = self.lower_visibility(union)?;
        let Some(name) = Name::of_text(union.node.text) else {
            return Ok(None);
        };
        Ok(Some(SmallModItem::Union(Union { name, visibility })))
    }

    pub fn lower_enum(&mut self, enum_: NodeRef) -> Result<Option<SmallModItem>, Refusal>
        ensures { Keeps self.old self.new }
    {
        let visibility = self.lower_visibility(enum_)?;
        let Some(name) = Name::of_text(enum_.node.text) else {
            return Ok(None);
        };
        Ok(Some(SmallModItem::Enum(Enum { name, visibility })))
    }

    pub fn lower_function(&mut self, func: NodeRef) -> Result<Option<SmallModItem>, Refusal>
        ensures { Keeps self.old self.new }
    {
        let visibility = self.lower_visibility(func)?;
        let Some(name) = Name::of_text(func.node.text) else {
            return Ok(None);
        };
        Ok(Some(SmallModItem::Function(Function { name, visibility })))
    }

    pub fn lower_type_alias(&mut self, alias: NodeRef) -> Result<Option<SmallModItem>, Refusal>
        ensures { Keeps self.old self.new }
    {
        let Some(name) = Name::of_text(alias.node.text) else {
            return Ok(None);
        };
        let visibility = self.lower_visibility(alias)?;
        Ok(Some(SmallModItem::TypeAlias(TypeAlias { name, visibility })))
    }

    pub fn lower_static(&mut self, static_: NodeRef) -> Result<Option<SmallModItem>, Refusal>
        ensures { Keeps self.old self.new }
    {
        let Some(name) = Name::of_text(static_.node.text) else {
            return Ok(None);
        };
        let visibility = self.lower_visibility(static_)?;
        Ok(Some(SmallModItem::Static(Static { name, visibility })))
    }

    pub fn lower_const(&mut self, konst: NodeRef) -> Result<Option<SmallModItem>, Refusal>
        ensures { Keeps self.old self.new }
    {
        let name = Name::of_text(konst.node.text);
        let visibility = self.lower_visibility(konst)?;
        Ok(Some(SmallModItem::Const(Const { name, visibility })))
    }

    pub fn lower_trait(&mut self, trait_def: NodeRef) -> Result<Option<SmallModItem>, Refusal>
        ensures { Keeps self.old self.new }
    {
        let Some(name) = Name::of_text(trait_def.node.text) else {
            return Ok(None);
        };
        let visibility = self.lower_visibility(trait_def)?;
        Ok(Some(SmallModItem::Trait(Trait { name, visibility })))
    }

    pub fn lower_macro_call(&mut self, call: NodeRef) -> Result<Option<SmallModItem>, Refusal>
        ensures { Keeps self.old self.new }
    {
        let Some(path) = child_of_kind(self.source, call, SyntaxKind::Path) else {
            return Ok(None);
        };
        let Some(path) = ModPath::from_src(self.source, path) else {
            return Ok(None);
        };
        let Ok(expand) = ExpandTo::try_from(call.node.mark) else {
            return Ok(None);
        };
        let path = self.tables.intern(&path)?;
        Ok(Some(SmallModItem::MacroCall(MacroCall {
            path,
            expand,
            ctxt: SyntaxContext::ROOT,
        })))
    }

    pub fn lower_macro_def(&mut self, def: NodeRef) -> Result<Option<SmallModItem>, Refusal>
        ensures { Keeps self.old self.new }
    {
        let Some(name) = Name::of_text(def.node.text) else {
            return Ok(None);
        };
        let visibility = self.lower_visibility(def)?;
        Ok(Some(SmallModItem::Macro2(Macro2 { name, visibility })))
    }
}

pub fn lower_impl(impl_def: NodeRef) -> SmallModItem
    ensures { result ≡ ImplItem (record { of_trait = nat_eq impl_def.node.mark 1 }) }
{
    // The mark of an impl is this flag, and is read here alone.
    SmallModItem::Impl(Impl {
        of_trait: impl_def.node.mark == 1,
    })
}

pub fn lower_macro_rules(rules: NodeRef) -> Option<SmallModItem>
    ensures { result ≡ option_map (λ n. MacroRulesItem (record { name = n })) (name_of rules.node.text) }
{
    Name::of_text(rules.node.text).map(|name| SmallModItem::MacroRules(MacroRules { name }))
}
