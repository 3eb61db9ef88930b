// The tables of a tree.
use items::attrs::{Attr, AttrsOrCfg};
use items::ids::{ModItemId, RawVisibilityId};
use items::rows::{BigRow, SmallRow};
use items::use_tree::UseTree;
use items::visibility::Visibilities;
use paths::interned::Paths;
use tables::table::Table;

#[derive(Clone, Copy)]
pub struct TreeTables {
    pub(crate) small: Table<SmallRow, 512>,
    pub(crate) big: Table<BigRow, 256>,
    // the top level, and past it the items of the nodes that are still open
    pub(crate) ids: Table<ModItemId, 768>,
    // the items of the modules and extern blocks that are closed
    pub(crate) children: Table<ModItemId, 768>,
    pub(crate) attrs: Table<Attr, 512>,
    // the attributes of the top level
    pub(crate) top: Option<AttrsOrCfg>,
    pub(crate) visibilities: Visibilities,
    pub(crate) ctors: Table<RawVisibilityId, 256>,
    pub(crate) uses: Table<UseTree, 1024>,
    pub(crate) paths: Paths,
}
