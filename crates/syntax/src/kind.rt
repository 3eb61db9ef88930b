// The kinds of nodes, by number.
ghost use Rattle.std.specs.Prelude.{◌≡◌, Some};
ghost use Rattle.syntax.specs.Kinds.{Decodes, is_item, number_of, unknown_text};

use std::error::Error;
use std::fmt;

#[derive(Clone, Copy, PartialEq, Eq, Debug)]
pub enum SyntaxKind {
    File = 0,
    Struct = 10,
    Union = 11,
    Enum = 12,
    Fn = 13,
    TypeAlias = 14,
    Static = 15,
    Const = 16,
    Module = 17,
    Trait = 18,
    Impl = 19,
    Use = 20,
    ExternCrate = 21,
    MacroCall = 22,
    MacroRules = 23,
    MacroDef = 24,
    ExternBlock = 25,
    AsmExpr = 26,
    Vis = 30,
    Path = 31,
    Segment = 32,
    UseTree = 33,
    Rename = 34,
    Field = 35,
    Attr = 36,
}

impl From<SyntaxKind> for u32 {
    ghost from_gives = { λ kind number. number ≡ number_of kind };

    fn from(kind: SyntaxKind) -> u32 {
        kind as u32
    }
}

// A number that no kind has.
#[derive(Clone, Copy, PartialEq, Eq, Debug)]
pub struct UnknownKind {
    pub number: u32,
}

impl fmt::Display for UnknownKind {
    ghost output = { λ unknown. Some (unknown_text unknown) };

    fn fmt<W: fmt::Write>(&self, f: &mut fmt::Formatter<W>) -> fmt::Result {
        write!(f, "no kind of node has number {}", self.number)
    }
}

impl Error for UnknownKind {}

impl TryFrom<u32> for SyntaxKind {
    type Error = UnknownKind;

    ghost try_from_gives = { Decodes };

    fn try_from(number: u32) -> Result<SyntaxKind, UnknownKind> {
        Ok(match number {
            0 => SyntaxKind::File,
            10 => SyntaxKind::Struct,
            11 => SyntaxKind::Union,
            12 => SyntaxKind::Enum,
            13 => SyntaxKind::Fn,
            14 => SyntaxKind::TypeAlias,
            15 => SyntaxKind::Static,
            16 => SyntaxKind::Const,
            17 => SyntaxKind::Module,
            18 => SyntaxKind::Trait,
            19 => SyntaxKind::Impl,
            20 => SyntaxKind::Use,
            21 => SyntaxKind::ExternCrate,
            22 => SyntaxKind::MacroCall,
            23 => SyntaxKind::MacroRules,
            24 => SyntaxKind::MacroDef,
            25 => SyntaxKind::ExternBlock,
            26 => SyntaxKind::AsmExpr,
            30 => SyntaxKind::Vis,
            31 => SyntaxKind::Path,
            32 => SyntaxKind::Segment,
            33 => SyntaxKind::UseTree,
            34 => SyntaxKind::Rename,
            35 => SyntaxKind::Field,
            36 => SyntaxKind::Attr,
            _ => return Err(UnknownKind { number }),
        })
    }
}

impl SyntaxKind {
    // Whether a node of this kind is an item.
    pub fn is_item(self) -> bool
        ensures { result ≡ is_item (number_of self) }
    {
        is_item(u32::from(self))
    }
}

// Whether a node of a kind with this number is an item.
pub(crate) fn is_item(kind: u32) -> bool
    ensures { result ≡ is_item kind }
{
    matches!(kind, 10..=26)
}
