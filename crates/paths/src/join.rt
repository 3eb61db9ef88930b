// Joining a path to the path of the groups around it.
ghost use Rattle.std.specs.Prelude.{◌≡◌, ◌+◌, ◌^◌, ◌<◌, ◌≤◌, List, ◌++◌, length, IfSome, Some};
ghost use Rattle.paths.specs.Joining.{join as join_of, single_target};
ghost use Rattle.paths.specs.JoiningLaws.{JoiningLaws};
ghost use Rattle.paths.specs.Shapes.{around, joined, imported, len_of, supers_of, supers_in};
ghost use Rattle.paths.specs.declared.mod_path.PathKind.TheVariants.{Super};
ghost use Rattle.paths.specs.declared.name.Name.{Name as PathName};

use crate::mod_path::PathKind;

// What an import brings in.
#[derive(Clone, Copy, PartialEq, Eq, Debug)]
pub enum ImportKind {
    // an item by its name
    Single,
    // a module, enum or trait by `self` in a group: only the name of the type
    TypeOnly,
    // all that a module has
    Glob,
}

// A path without its names: its kind, and how many names it has.
#[derive(Clone, Copy)]
pub struct PathShape {
    pub kind: PathKind,
    pub len: usize,
}

// `super` under a prefix of `super` alone.
fn add_supers(prefix: PathShape, count: u32, len: usize) -> Option<PathShape>
    ensures joins { (xs ns : List PathName) → length xs ≡ prefix.len → supers_of prefix.kind + count < 2 ^ 32 → join_of (around xs (Some prefix)) (record { kind = Super count; names = ns }) ≡ joined (xs ++ ns) result }
    ensures sizes { IfSome result (λ whole. (whole.len ≡ prefix.len + len) × (supers_of whole.kind ≤ supers_of prefix.kind + count)) }
{
    if count == 0 || prefix.len > 0 {
        return None;
    }
    let PathKind::Super(outer) = prefix.kind else {
        return None;
    };
    Some(PathShape {
        kind: PathKind::Super(outer.saturating_add(count)),
        len,
    })
}

// A path under a prefix, unless they do not join. Its names are the prefix's and then the path's.
pub fn concat_mod_paths(prefix: Option<PathShape>, path: PathShape) -> Option<PathShape>
    ensures joins { (xs ns : List PathName) → length xs ≡ len_of prefix → supers_in prefix + supers_of path.kind < 2 ^ 32 → join_of (around xs prefix) (record { kind = path.kind; names = ns }) ≡ joined (xs ++ ns) result }
    ensures sizes { IfSome result (λ whole. (len_of prefix + path.len < 2 ^ 64 → whole.len ≡ len_of prefix + path.len) × (supers_of whole.kind ≤ supers_in prefix + supers_of path.kind)) }
{
    let Some(prefix) = prefix else {
        return Some(path);
    };
    match path.kind {
        PathKind::Plain => Some(PathShape {
            kind: prefix.kind,
            len: prefix.len.saturating_add(path.len),
        }),
        // `super::super` + `super::rest`
        PathKind::Super(count) => add_supers(prefix, count, path.len),
        PathKind::Crate | PathKind::Abs | PathKind::DollarCrate => None,
    }
}

// `self` alone in a group is the prefix itself, unless that is a bare `::`.
fn self_import(prefix: PathShape) -> Option<(PathKind, ImportKind)>
    ensures { (xs ns : List PathName) → length xs ≡ prefix.len → length ns ≡ 0 → single_target (around xs (Some prefix)) (record { kind = Super 0; names = ns }) ≡ imported (xs ++ ns) result }
{
    match prefix.kind {
        PathKind::Abs if prefix.len == 0 => None,
        kind => Some((kind, ImportKind::TypeOnly)),
    }
}

// What a single imports under a prefix, unless they do not join. The names are the prefix's and then the path's.
pub fn single_import(prefix: Option<PathShape>, path: PathShape) -> Option<(PathKind, ImportKind)>
    ensures { (xs ns : List PathName) → length xs ≡ len_of prefix → length ns ≡ path.len → supers_in prefix + supers_of path.kind < 2 ^ 32 → single_target (around xs prefix) (record { kind = path.kind; names = ns }) ≡ imported (xs ++ ns) result }
{
    let Some(outer) = prefix else {
        return Some((path.kind, ImportKind::Single));
    };
    match path.kind {
        PathKind::Super(0) if path.len == 0 => self_import(outer),
        _ => {
            let whole = concat_mod_paths(prefix, path)?;
            Some((whole.kind, ImportKind::Single))
        }
    }
}

// Joining is what its laws say, in the contract.
pub fn joining_stands()
    ensures { JoiningLaws }
{}
