// The table of kinds: which marks a kind has, and which children, in which order.
ghost use Rattle.std.specs.Prelude.{◌≡◌};
ghost use Rattle.syntax.specs.Kinds.{number_of};
ghost use Rattle.syntax.specs.declared.kind.SyntaxKind.TheVariants.{File};
ghost use Rattle.syntax.specs.Table.{is, mark_fits, is_group, takes_vis, takes_item, takes_path, takes, place_of, single, count_fits};

use syntax::kind::SyntaxKind;

// The marks that say which children a node has. No plainer as an enum: each kind gives the same
// numbers a meaning of its own.
const TUPLE: u32 = 2;

const INLINE: u32 = 0;

const IN: u32 = 4;

const GROUP: u32 = 2;

const BARE_GLOB: u32 = 5;

const BARE_GROUP: u32 = 6;

// A path has at most so many segments.
const MAX_SEGMENTS: u32 = 64;

// Whether it is the kind of a root.
pub fn is_root(kind: SyntaxKind) -> bool
    ensures { result ≡ is File (number_of kind) }
{
    matches!(kind, SyntaxKind::File)
}

// Whether the kind has this mark.
pub fn mark_fits(kind: SyntaxKind, mark: u32) -> bool
    ensures { result ≡ mark_fits (number_of kind) mark }
{
    match kind {
        SyntaxKind::Struct => mark <= 2,
        SyntaxKind::Module | SyntaxKind::Impl | SyntaxKind::Path => mark <= 1,
        SyntaxKind::MacroCall | SyntaxKind::Vis | SyntaxKind::Segment | SyntaxKind::Attr => {
            mark <= 4
        }
        SyntaxKind::UseTree => mark <= 2 || mark == BARE_GLOB || mark == BARE_GROUP,
        _ => mark == 0,
    }
}

fn is_group(mark: u32) -> bool
    ensures { result ≡ is_group mark }
{
    mark == GROUP || mark == BARE_GROUP
}

fn takes_vis(kind: SyntaxKind) -> bool
    ensures { result ≡ takes_vis (number_of kind) }
{
    matches!(
        kind,
        SyntaxKind::Struct
            | SyntaxKind::Union
            | SyntaxKind::Enum
            | SyntaxKind::Fn
            | SyntaxKind::TypeAlias
            | SyntaxKind::Static
            | SyntaxKind::Const
            | SyntaxKind::Module
            | SyntaxKind::Trait
            | SyntaxKind::Use
            | SyntaxKind::ExternCrate
            | SyntaxKind::MacroDef
            | SyntaxKind::Field
    )
}

fn takes_path(kind: SyntaxKind, mark: u32) -> bool
    ensures { result ≡ takes_path (number_of kind) mark }
{
    match kind {
        SyntaxKind::MacroCall | SyntaxKind::Attr => true,
        SyntaxKind::Vis => mark == IN,
        SyntaxKind::UseTree => mark < BARE_GLOB,
        _ => false,
    }
}

// Whether a node of this kind and mark has an item of kind `item` below it.
fn takes_item(kind: SyntaxKind, mark: u32, item: SyntaxKind) -> bool
    ensures { result ≡ takes_item (number_of kind) mark (number_of item) }
{
    match kind {
        SyntaxKind::File => true,
        SyntaxKind::Module => mark == INLINE,
        SyntaxKind::ExternBlock => matches!(
            item,
            SyntaxKind::Fn | SyntaxKind::TypeAlias | SyntaxKind::Static | SyntaxKind::MacroCall
        ),
        _ => false,
    }
}

// Whether a node of this kind and mark has children of kind `child`.
pub fn takes_child(kind: SyntaxKind, mark: u32, child: SyntaxKind) -> bool
    ensures { result ≡ takes (number_of kind) mark (number_of child) }
{
    match child {
        SyntaxKind::Attr => matches!(kind, SyntaxKind::File) || kind.is_item(),
        SyntaxKind::Vis => takes_vis(kind),
        SyntaxKind::Path => takes_path(kind, mark),
        SyntaxKind::Rename => match kind {
            SyntaxKind::ExternCrate => true,
            SyntaxKind::UseTree => !is_group(mark),
            _ => false,
        },
        SyntaxKind::UseTree => match kind {
            SyntaxKind::Use => true,
            SyntaxKind::UseTree => is_group(mark),
            _ => false,
        },
        SyntaxKind::Segment => matches!(kind, SyntaxKind::Path),
        SyntaxKind::Field => matches!(kind, SyntaxKind::Struct) && mark == TUPLE,
        SyntaxKind::File => false,
        _ => takes_item(kind, mark, child),
    }
}

// The order of a node's children: attributes, a visibility, a path, a rename, and the others.
pub fn place_of(child: SyntaxKind) -> u8
    ensures { result ≡ place_of (number_of child) }
{
    match child {
        SyntaxKind::Attr => 0,
        SyntaxKind::Vis => 1,
        SyntaxKind::Path => 2,
        SyntaxKind::Rename => 3,
        _ => 4,
    }
}

// Whether a node of this kind has at most one child of kind `child`.
pub fn is_single(kind: SyntaxKind, child: SyntaxKind) -> bool
    ensures { result ≡ single (number_of kind) (number_of child) }
{
    match child {
        SyntaxKind::Vis | SyntaxKind::Path | SyntaxKind::Rename => true,
        SyntaxKind::UseTree => matches!(kind, SyntaxKind::Use),
        _ => false,
    }
}

// Whether a node of this kind and mark may have so many children.
pub fn count_fits(kind: SyntaxKind, mark: u32, count: u32) -> bool
    ensures { result ≡ count_fits (number_of kind) mark count }
{
    match kind {
        SyntaxKind::Path => 1 <= count && count <= MAX_SEGMENTS,
        SyntaxKind::Vis => mark != IN || count == 1,
        _ => true,
    }
}
