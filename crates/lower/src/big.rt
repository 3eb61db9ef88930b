// The big items without children, each lowered to its record or passed over.
// Each takes its name by `let .. else` where the Rust takes it, before or after the visibility is recorded (docs/DECISIONS.md, 8).
ghost use Rattle.std.specs.Prelude.{◌≡◌};
ghost use Rattle.lower.specs.Keeping.{Keeps};

use crate::lowering::Lowering;
use crate::use_tree::{MAX_USE_DEPTH, Unmapped, alias_of};
use items::ids::RawVisibilityId;
use items::records::{ExternCrate, FieldsShape, Mod, ModKind, Struct, StructValueNsCtor, Use};
use items::rows::BigModItem;
use paths::name::Name;
use syntax::kind::SyntaxKind;
use syntax::refusal::Refusal;
use syntax::source::SyntaxSource;
use syntax::walk::{NodeRef, child_of_kind};

impl<S: SyntaxSource> Lowering<'_, '_, S> {
    pub fn lower_struct(&mut self, strukt: NodeRef) -> Result<Option<BigModItem>, Refusal>
        ensures { Keeps self.old self.new }
    {
        let visibility = self.lower_visibility(strukt)?;
        let Some(name) = Name::of_text(strukt.node.text) else {
            return Ok(None);
        };
        let ctor = self.lower_ctor(strukt, visibility)?;
        Ok(Some(BigModItem::Struct(Struct {
            name,
            visibility,
            ctor,
        })))
    }

    fn lower_ctor(
        &mut self,
        strukt: NodeRef,
        visibility: RawVisibilityId,
    ) -> Result<StructValueNsCtor, Refusal>
        ensures { Keeps self.old self.new }
    {
        match FieldsShape::try_from(strukt.node.mark) {
            Ok(FieldsShape::Tuple) => self.tuple_struct_ctor_vis(strukt),
            Ok(FieldsShape::Unit) => Ok(StructValueNsCtor::ValueNsCtorWithVis(visibility)),
            Ok(FieldsShape::Record) | Err(_) => Ok(StructValueNsCtor::NoValueNsCtor),
        }
    }

    pub fn lower_use(&mut self, use_item: NodeRef) -> Result<Option<BigModItem>, Refusal>
        ensures { Keeps self.old self.new }
    {
        let visibility = self.lower_visibility(use_item)?;
        let Some(tree) = child_of_kind(self.source, use_item, SyntaxKind::UseTree) else {
            return Ok(None);
        };
        let first = self.tables.use_count();
        self.lower_use_tree(&mut Unmapped, tree, MAX_USE_DEPTH)?;
        let use_tree = self.tables.uses_from(first);
        if use_tree.count == 0 {
            return Ok(None);
        }
        Ok(Some(BigModItem::Use(Use {
            visibility,
            use_tree,
        })))
    }

    pub fn lower_extern_crate(
        &mut self,
        extern_crate: NodeRef,
    ) -> Result<Option<BigModItem>, Refusal>
        ensures { Keeps self.old self.new }
    {
        let Some(name) = Name::of_text(extern_crate.node.text) else {
            return Ok(None);
        };
        let alias = alias_of(self.source, extern_crate);
        let visibility = self.lower_visibility(extern_crate)?;
        Ok(Some(BigModItem::ExternCrate(ExternCrate {
            name,
            alias,
            visibility,
        })))
    }

    // `mod m;`
    pub fn lower_outline_module(&mut self, module: NodeRef) -> Result<Option<BigModItem>, Refusal>
        ensures { Keeps self.old self.new }
    {
        let Some(name) = Name::of_text(module.node.text) else {
            return Ok(None);
        };
        let visibility = self.lower_visibility(module)?;
        Ok(Some(BigModItem::Mod(Mod {
            name,
            visibility,
            kind: ModKind::Outline,
        })))
    }
}
