// A tree that takes items.
use tree_tables::tree::TreeTables;

pub mod calls;
pub mod walk;

#[derive(Drop)]
pub struct Ctx {
    pub(crate) tree: TreeTables,
    // whether a lowering call was accepted
    begun: bool,
}
