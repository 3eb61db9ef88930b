// Attributes, as a tree holds them.
ghost use Rattle.std.specs.Prelude.{◌≡◌};
ghost use Rattle.items.specs.Attributes.{Attribute};
ghost use Rattle.items.specs.Merging.{MergingLaws};
ghost use Rattle.items.specs.Records.{is_empty, part_of, with_part};

use crate::ids::SyntaxContext;
use paths::interned::PathId;
use tables::part::Part;

// What follows an attribute's path, by the number of its text.
#[derive(Clone, Copy)]
pub enum AttrInput {
    Literal(u32),
    TokenTree(u32),
}

#[derive(Clone, Copy)]
pub struct Attr {
    pub path: PathId,
    pub input: Option<AttrInput>,
    pub ctxt: SyntaxContext,
}

// A part of a tree's table of attributes.
pub type AttrsOwned = Part<Attr>;

// A false condition, by the number of its text.
#[derive(Clone, Copy)]
pub struct CfgExpr {
    pub text: Option<u32>,
}

#[derive(Clone, Copy)]
pub enum AttrsOrCfg {
    Enabled { attrs: AttrsOwned },
    // only the attributes before the false condition
    CfgDisabled { cfg: CfgExpr, attrs: AttrsOwned },
}

impl AttrsOrCfg {
    pub fn is_empty(self) -> bool
        ensures { result ≡ is_empty self }
    {
        match self {
            AttrsOrCfg::Enabled { attrs } => attrs.count == 0,
            AttrsOrCfg::CfgDisabled { .. } => false,
        }
    }

    // The part of the table that the list is.
    pub fn part(self) -> AttrsOwned
        ensures { result ≡ part_of self }
    {
        match self {
            AttrsOrCfg::Enabled { attrs } | AttrsOrCfg::CfgDisabled { attrs, .. } => attrs,
        }
    }

    // The list with another part of the table.
    pub fn with_part(self, attrs: AttrsOwned) -> AttrsOrCfg
        ensures { result ≡ with_part self attrs }
    {
        match self {
            AttrsOrCfg::Enabled { .. } => AttrsOrCfg::Enabled { attrs },
            AttrsOrCfg::CfgDisabled { cfg, .. } => AttrsOrCfg::CfgDisabled { cfg, attrs },
        }
    }
}

// Merging attribute lists is what its laws say, in the contract.
pub fn merging_stands()
    ensures { MergingLaws Attribute }
{}
