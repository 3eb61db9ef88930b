// What lowering works on.
use tree_tables::tree::TreeTables;

// The tables of a tree, and the source whose nodes go into them.
// Each method says `Keeps` by itself. As a ghost field that fact was tried, and the proof does not close where the struct is
// made of a `&mut`: it is lent on under another name, and no fact ties that name to the first.
#[derive(Drop)]
pub struct Lowering<'t, 's, S> {
    pub tables: &'t mut TreeTables,
    pub source: &'s S,
}
