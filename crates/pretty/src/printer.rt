// Who prints: the page, the tree that is printed, and the source that has its texts.
use page::out::Out;
use syntax::source::SyntaxSource;
use tree_tables::tree::TreeTables;

// The indent is no field: its guard lends the level while the items inside are printed, so it stands apart from this.
#[derive(Drop)]
pub(crate) struct Printer<'o, 't, 's, S: SyntaxSource> {
    pub(crate) out: Out<'o>,
    pub(crate) tree: &'t TreeTables,
    pub(crate) source: &'s S,
}
