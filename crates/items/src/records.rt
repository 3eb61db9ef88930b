// The record of each kind of item.
ghost use Rattle.std.specs.Prelude.{◌≡◌, ◌<◌, Some, MatchResult};
ghost use Rattle.items.specs.Marks.{expand_mark, expand_word, shape_mark, unknown_text};
ghost use Rattle.items.specs.Records.{has_ctor};

use crate::ids::{ModItemId, RawVisibilityId, SyntaxContext};
use crate::use_tree::{ImportAlias, UseTree};
use paths::interned::PathId;
use paths::name::Name;
use std::error::Error;
use std::fmt;
use tables::part::Part;

// A part of a tree's table of children.
pub type ItemIds = Part<ModItemId>;

// A part of a tree's table of use trees.
pub type UseTrees = Part<UseTree>;

// A part of a tree's table of constructor visibilities.
pub type VisibilityIds = Part<RawVisibilityId>;

#[derive(Clone, Copy)]
pub struct Use {
    pub visibility: RawVisibilityId,
    pub use_tree: UseTrees,
}

#[derive(Clone, Copy)]
pub struct ExternCrate {
    pub name: Name,
    pub alias: Option<ImportAlias>,
    pub visibility: RawVisibilityId,
}

#[derive(Clone, Copy)]
pub struct ExternBlock {
    pub children: ItemIds,
}

#[derive(Clone, Copy)]
pub struct Function {
    pub name: Name,
    pub visibility: RawVisibilityId,
}

// Who may call a struct's constructor.
#[derive(Clone, Copy)]
pub enum StructValueNsCtor {
    NoValueNsCtor,
    ValueNsCtorWithVis(RawVisibilityId),
    // whoever all of them admit
    ValueNsCtorWithMinVis(VisibilityIds),
}

#[derive(Clone, Copy)]
pub struct Struct {
    pub name: Name,
    pub visibility: RawVisibilityId,
    pub ctor: StructValueNsCtor,
}

#[derive(Clone, Copy)]
pub struct Union {
    pub name: Name,
    pub visibility: RawVisibilityId,
}

#[derive(Clone, Copy)]
pub struct Enum {
    pub name: Name,
    pub visibility: RawVisibilityId,
}

#[derive(Clone, Copy)]
pub struct Const {
    // none for `const _`
    pub name: Option<Name>,
    pub visibility: RawVisibilityId,
}

#[derive(Clone, Copy)]
pub struct Static {
    pub name: Name,
    pub visibility: RawVisibilityId,
}

#[derive(Clone, Copy)]
pub struct Trait {
    pub name: Name,
    pub visibility: RawVisibilityId,
}

#[derive(Clone, Copy)]
pub struct Impl {
    pub of_trait: bool,
}

#[derive(Clone, Copy)]
pub struct TypeAlias {
    pub name: Name,
    pub visibility: RawVisibilityId,
}

#[derive(Clone, Copy)]
pub enum ModKind {
    // `mod m { .. }`
    Inline { items: ItemIds },
    // `mod m;`
    Outline,
}

#[derive(Clone, Copy)]
pub struct Mod {
    pub name: Name,
    pub visibility: RawVisibilityId,
    pub kind: ModKind,
}

// What a macro call stands for.
#[derive(Clone, Copy)]
pub enum ExpandTo {
    Statements,
    Items,
    Pattern,
    Type,
    Expr,
}

impl fmt::Display for ExpandTo {
    ghost output = { λ expand. Some (expand_word expand) };

    fn fmt<W: fmt::Write>(&self, f: &mut fmt::Formatter<W>) -> fmt::Result {
        f.write_str(self.as_str())
    }
}

// A mark that says nothing of its node.
#[derive(Clone, Copy, PartialEq, Eq, Debug)]
pub struct UnknownMark {
    pub mark: u32,
}

impl fmt::Display for UnknownMark {
    ghost output = { λ unknown. Some (unknown_text unknown) };

    fn fmt<W: fmt::Write>(&self, f: &mut fmt::Formatter<W>) -> fmt::Result {
        write!(f, "mark {} says nothing", self.mark)
    }
}

impl Error for UnknownMark {}

impl TryFrom<u32> for ExpandTo {
    type Error = UnknownMark;

    ghost try_from_gives = { λ mark r. MatchResult r (λ x. expand_mark x ≡ mark) (λ e. (e.mark ≡ mark) × (4 < mark)) };

    fn try_from(mark: u32) -> Result<ExpandTo, UnknownMark> {
        match mark {
            0 => Ok(ExpandTo::Statements),
            1 => Ok(ExpandTo::Items),
            2 => Ok(ExpandTo::Pattern),
            3 => Ok(ExpandTo::Type),
            4 => Ok(ExpandTo::Expr),
            _ => Err(UnknownMark { mark }),
        }
    }
}

impl ExpandTo {
    // The name of the variant.
    pub fn as_str(self) -> &'static str
        ensures { result.now ≡ expand_word self }
    {
        match self {
            ExpandTo::Statements => "Statements",
            ExpandTo::Items => "Items",
            ExpandTo::Pattern => "Pattern",
            ExpandTo::Type => "Type",
            ExpandTo::Expr => "Expr",
        }
    }
}

#[derive(Clone, Copy)]
pub struct MacroCall {
    pub path: PathId,
    pub expand: ExpandTo,
    pub ctxt: SyntaxContext,
}

#[derive(Clone, Copy)]
pub struct MacroRules {
    pub name: Name,
}

#[derive(Clone, Copy)]
pub struct Macro2 {
    pub name: Name,
    pub visibility: RawVisibilityId,
}

// The fields of a struct, by the mark of its node.
#[derive(Clone, Copy)]
pub enum FieldsShape {
    Record,
    Unit,
    Tuple,
}

impl TryFrom<u32> for FieldsShape {
    type Error = UnknownMark;

    ghost try_from_gives = { λ mark r. MatchResult r (λ x. shape_mark x ≡ mark) (λ e. (e.mark ≡ mark) × (2 < mark)) };

    fn try_from(mark: u32) -> Result<FieldsShape, UnknownMark> {
        match mark {
            0 => Ok(FieldsShape::Record),
            1 => Ok(FieldsShape::Unit),
            2 => Ok(FieldsShape::Tuple),
            _ => Err(UnknownMark { mark }),
        }
    }
}

impl FieldsShape {
    pub fn has_value_ns_ctor(self) -> bool
        ensures { result ≡ has_ctor self }
    {
        match self {
            FieldsShape::Record => false,
            FieldsShape::Tuple | FieldsShape::Unit => true,
        }
    }
}
