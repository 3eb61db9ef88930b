// A record together with its node and its attributes.
ghost use Rattle.std.specs.Prelude.{◌≡◌};
ghost use Rattle.items.specs.Children.{children_of};

use crate::attrs::AttrsOrCfg;
use crate::ids::FileAstId;
use crate::records::{
    Const, Enum, ExternBlock, ExternCrate, Function, Impl, ItemIds, Macro2, MacroCall, MacroRules,
    Mod, ModKind, Static, Struct, Trait, TypeAlias, Union, Use,
};

#[derive(Clone, Copy)]
pub enum SmallModItem {
    Const(Const),
    Enum(Enum),
    ExternBlock(ExternBlock),
    Function(Function),
    Impl(Impl),
    Macro2(Macro2),
    MacroCall(MacroCall),
    MacroRules(MacroRules),
    Static(Static),
    Trait(Trait),
    TypeAlias(TypeAlias),
    Union(Union),
}

#[derive(Clone, Copy)]
pub enum BigModItem {
    ExternCrate(ExternCrate),
    Mod(Mod),
    Use(Use),
    Struct(Struct),
}

// The record that an id names.
#[derive(Clone, Copy)]
pub enum ModItem {
    Small(SmallModItem),
    Big(BigModItem),
}

#[derive(Clone, Copy)]
pub struct Row<T> {
    pub id: FileAstId,
    pub item: T,
    // none where the list is enabled and empty
    pub attrs: Option<AttrsOrCfg>,
}

impl<T> Row<T> {
    // The row with another record in place of its own.
    pub fn map<U, F: FnOnce(T) -> U>(self, f: F) -> Row<U>
        requires { F.pre f self.item }
        ensures item { F.post f self.item result.item }
        ensures id { result.id ≡ self.id }
        ensures attrs { result.attrs ≡ self.attrs }
    {
        let Row { id, item, attrs } = self;
        Row {
            id,
            item: f(item),
            attrs,
        }
    }
}

pub type SmallRow = Row<SmallModItem>;

pub type BigRow = Row<BigModItem>;

// What an id answers: the record and its node.
#[derive(Clone, Copy)]
pub struct IndexedItem {
    pub id: FileAstId,
    pub item: ModItem,
}

impl ModItem {
    // The items inside a module or an extern block.
    pub fn children(self) -> Option<ItemIds>
        ensures { result ≡ children_of self }
    {
        match self {
            ModItem::Small(SmallModItem::ExternBlock(block)) => Some(block.children),
            ModItem::Big(BigModItem::Mod(module)) => match module.kind {
                ModKind::Inline { items } => Some(items),
                ModKind::Outline => None,
            },
            ModItem::Small(_) | ModItem::Big(_) => None,
        }
    }
}
