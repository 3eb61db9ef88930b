// Code over every source, proved once.
ghost use Rattle.std.specs.Prelude.{◌≡◌, length};

use syntax::source::SyntaxSource;

// How many nodes there are: by the law, the end of the first.
pub fn node_count<S: SyntaxSource>(source: &S) -> u32
    ensures { result ≡ length (S.meaning source.now).nodes }
{
    source.node(0).map_or(0, |root| root.end)
}
