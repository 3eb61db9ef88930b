// The public calls of the item tree, named in one place.
#![tactic(auto)]

ghost use Rattle.std.specs.Prelude.{◌≡◌, ◌≤◌, length, MatchResult};

// reading syntax
pub use forms::packed::PackedSource;
pub use forms::word::WordSource;
pub use syntax::node::Node;
pub use syntax::source::SyntaxSource;

// lowering it, and reading the tree
pub use item_tree::lowering::Ctx;
pub use item_tree::tree::ItemTree;
pub use items::attrs::AttrsOrCfg;
pub use items::ids::{FileAstId, ModItemId};
pub use items::rows::{BigModItem, IndexedItem, ModItem, SmallModItem};

// printing the tree
pub use pretty::print::print_item_tree;

// why a call is declined
pub use syntax::refusal::{Needed, Refusal};

// The printed text of the items of a packed form, from the front of `text`; answers its length.
pub fn print_packed(bytes: &[u8], text: &mut [u8]) -> Result<usize, Refusal>
    ensures { MatchResult result (λ len. len ≤ length text.old) (λ _. text.new ≡ text.old) }
{
    let mut source = PackedSource::least();
    source.open(bytes)?;
    let mut ctx = Ctx::new();
    let _ = ctx.lower_module_items(&source)?;
    let tree = ctx.finalize();
    print_item_tree(&tree, &source, text)
}
