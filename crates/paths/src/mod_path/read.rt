// Reading a Path node.
ghost use Rattle.std.specs.Prelude.{◌≡◌, ◌+◌, ◌^◌, ◌<◌, ◌≤◌, [], ◌∷◌, length};
ghost use Rattle.std.specs.Option.{option_map};
ghost use Rattle.syntax.specs.Children.{StandsIn};
ghost use Rattle.syntax.specs.Kinds.{number_of};
ghost use Rattle.syntax.specs.Meaning.{at as stands_at};
ghost use Rattle.syntax.specs.declared.kind.SyntaxKind.TheVariants.{Path as PathNode};
ghost use Rattle.paths.specs.Names.{name_of, names_of};
ghost use Rattle.paths.specs.Reading.{after_supers, Marks, meant, name_in, path_of, read_as, segment_of, segments_of, with_more, with_names};
ghost use Rattle.paths.specs.declared.mod_path.PathKind.TheVariants.{Plain};

use crate::mod_path::{ModPath, PathKind};
use crate::name::Name;
use syntax::node::Node;
use syntax::source::SyntaxSource;
use syntax::walk::{NodeRef, Walk, children};
use tables::table::Table;

// What a Segment is, by its mark.
#[derive(Clone, Copy, PartialEq, Eq)]
enum SegmentKind {
    Name,
    SelfWord,
    Super,
    Crate,
    DollarCrate,
}

impl From<Node> for SegmentKind {
    ghost from_gives = { Marks };

    fn from(segment: Node) -> SegmentKind {
        match segment.mark {
            0 => SegmentKind::Name,
            1 => SegmentKind::SelfWord,
            2 => SegmentKind::Super,
            3 => SegmentKind::Crate,
            // 4: no Segment has a larger mark
            _ => SegmentKind::DollarCrate,
        }
    }
}

impl ModPath {
    // Inlined, as those below, so that a path is filled where it is to stand.
    #[inline(always)]
    pub fn from_kind(kind: PathKind) -> ModPath
        ensures { (result.kind ≡ kind) × (names_of result ≡ []) }
    {
        ModPath {
            kind,
            names: Table::new(Name::Missing),
        }
    }

    // The path of one name.
    #[inline(always)]
    pub fn from_name(name: Name) -> ModPath
        ensures { (result.kind ≡ Plain) × (names_of result ≡ name ∷ []) }
    {
        ModPath::of_name(PathKind::Plain, name)
    }

    // A path of a kind with one name.
    #[inline(always)]
    fn of_name(kind: PathKind, name: Name) -> ModPath
        ensures { (result.kind ≡ kind) × (names_of result ≡ name ∷ []) }
    {
        let mut path = ModPath::from_kind(kind);
        let _ = path.names.push(name);
        path
    }

    pub fn kind(&self) -> PathKind
        ensures { result ≡ self.now.kind }
    {
        self.kind
    }

    pub fn names(&self) -> &[Name]
        ensures { result.now ≡ names_of self.now }
    {
        self.names.as_slice()
    }

    pub fn len(&self) -> usize
        ensures { (result ≡ length (names_of self.now)) × (result ≤ 64) }
    {
        self.names.len()
    }

    pub fn segment(&self, index: usize) -> Option<Name>
        ensures { result ≡ stands_at (names_of self.now) index }
    {
        self.names.get(index)
    }

    // The path that a Path node spells, unless it is unreadable.
    pub fn from_src<S: SyntaxSource>(source: &S, path: NodeRef) -> Option<ModPath>
        ensures { StandsIn (S.SyntaxSource.meaning source.now) path → path.node.kind ≡ number_of PathNode → option_map meant result ≡ path_of (S.SyntaxSource.meaning source.now) path }
    {
        // The mark of a Path is this flag, and is read here alone.
        spelled(path.node.mark == 1, children(source, path))
    }
}

// The path that segments spell, after a leading `::` or not.
fn spelled<S: SyntaxSource>(leading: bool, mut segments: Walk<'_, S>) -> Option<ModPath>
    requires { length segments < 2 ^ 32 }
    ensures { length segments.entry ≤ 64 → option_map meant result ≡ read_as leading (segments_of segments.entry) }
{
    let first = segments.next()?;
    if leading {
        return first_name(PathKind::Abs, first, segments);
    }
    match SegmentKind::from(first.node) {
        SegmentKind::Name => first_name(PathKind::Plain, first, segments),
        SegmentKind::SelfWord => after_supers(0, segments),
        SegmentKind::Super => after_supers(1, segments),
        SegmentKind::Crate => with_names(ModPath::from_kind(PathKind::Crate), segments),
        SegmentKind::DollarCrate => with_names(ModPath::from_kind(PathKind::DollarCrate), segments),
    }
}

// Goes on after `self` and `count` times `super`: more of these, and then names.
fn after_supers<S: SyntaxSource>(mut count: u32, mut segments: Walk<'_, S>) -> Option<ModPath>
    requires { count + length segments < 2 ^ 32 }
    ensures { length segments.entry ≤ 64 → option_map meant result ≡ after_supers count (segments_of segments.entry) }
{
    // No `for`: the walk goes on with names where `super` ends.
    while let Some(segment) = segments.next() {
        if SegmentKind::from(segment.node) != SegmentKind::Super {
            return first_name(PathKind::Super(count), segment, segments);
        }
        count += 1;
    }
    Some(ModPath::from_kind(PathKind::Super(count)))
}

// A path of a kind with a first name, and others.
fn first_name<S: SyntaxSource>(
    kind: PathKind,
    first: NodeRef,
    segments: Walk<'_, S>,
) -> Option<ModPath>
    ensures { length segments.entry < 64 → option_map meant result ≡ with_names kind (segment_of first.node ∷ segments_of segments.entry) }
{
    let name = name_in(first.node)?;
    with_names(ModPath::of_name(kind, name), segments)
}

// The path goes on with names, which are all the segments that are left.
fn with_names<S: SyntaxSource>(mut path: ModPath, segments: Walk<'_, S>) -> Option<ModPath>
    ensures { length (names_of path) + length segments.entry ≤ 64 → option_map meant result ≡ with_more (meant path) (segments_of segments.entry) }
{
    for segment in segments {
        let name = name_in(segment.node)?;
        path.names.push(name).ok()?;
    }
    Some(path)
}

// The name of a Segment that is a name.
fn name_in(segment: Node) -> Option<Name>
    ensures { result ≡ name_in (segment_of segment) }
{
    match SegmentKind::from(segment) {
        SegmentKind::Name => Name::of_text(segment.text),
        SegmentKind::SelfWord
        | SegmentKind::Super
        | SegmentKind::Crate
        | SegmentKind::DollarCrate => None,
    }
}
