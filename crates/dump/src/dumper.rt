// One tree being written out.
use page::sink::Sink;
use std::fmt;
use std::fmt::Write;
use syntax::source::SyntaxSource;
use tree_tables::tree::TreeTables;

// How much is written. Closures would be no plainer: it is asked inside a use item and at the end.
#[derive(Clone, Copy, PartialEq, Eq)]
pub(crate) enum Extent {
    // what the tree holds
    Tree,
    // also what expanding, lowering use trees by themselves and merging answer
    Whole,
}

// Where a tree is written, its tables, and the source of its names.
#[derive(Drop)]
pub(crate) struct Dumper<'o, 'b, 't, 's, S: SyntaxSource> {
    pub(crate) out: &'o mut Sink<'b>,
    pub(crate) tables: &'t TreeTables,
    pub(crate) source: &'s S,
    pub(crate) extent: Extent,
}

impl<S: SyntaxSource> Dumper<'_, '_, '_, '_, S> {
    // Writes a text: no write to a sink fails.
    pub(crate) fn say<D: fmt::Display + Drop>(&mut self, text: D) {
        let _ = self.out.write(text);
    }
}
