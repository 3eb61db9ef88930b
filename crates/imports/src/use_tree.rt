// Lowering one use tree by itself, together with the node of each place.
ghost use Rattle.std.specs.Prelude.{◌≡◌, ◌≤◌, length, IfSome, MatchResult};

use items::use_tree::UseTreeKind;
use lower::lowering::Lowering;
use lower::use_tree::{MAX_USE_DEPTH, UseTreeMapping};
use paths::interned::PathId;
use paths::mod_path::ModPath;
use syntax::kind::SyntaxKind;
use syntax::refusal::{Needed, Refusal};
use syntax::source::SyntaxSource;
use syntax::walk::{NodeRef, child_of_kind};
use tables::table::Table;
use tree_tables::tree::TreeTables;

// A node of a use tree that stands in no item tree: it has its path itself.
pub type UseNode = UseTreeKind<ModPath>;

// The Use node of that number.
fn use_item<S: SyntaxSource>(source: &S, number: u32) -> Option<NodeRef> {
    let node = source.node(number)?;
    let item = NodeRef { number, node };
    item.is(SyntaxKind::Use).then_some(item)
}

fn path_at(tables: &TreeTables, path: PathId) -> Result<ModPath, Refusal> {
    let path = tables.path(path)?;
    Ok(ModPath::from_segments(path.kind(), tables.names(path)))
}

fn maybe_path_at(tables: &TreeTables, path: Option<PathId>) -> Result<Option<ModPath>, Refusal> {
    path.map(|path| path_at(tables, path)).transpose()
}

fn node_of(tables: &TreeTables, kind: UseTreeKind) -> Result<UseNode, Refusal> {
    Ok(match kind {
        UseTreeKind::Single { path, alias } => UseTreeKind::Single {
            path: path_at(tables, path)?,
            alias,
        },
        UseTreeKind::Glob { path } => UseTreeKind::Glob {
            path: maybe_path_at(tables, path)?,
        },
        UseTreeKind::Prefixed { prefix, end } => UseTreeKind::Prefixed {
            prefix: maybe_path_at(tables, prefix)?,
            end,
        },
    })
}

// Writes the nodes of the tree that the tables hold.
fn put_nodes(tables: &TreeTables, tree: &mut [UseNode]) -> Result<(), Refusal> {
    for (slot, node) in tree.iter_mut().zip(tables.uses()) {
        *slot = node_of(tables, node.kind)?;
    }
    Ok(())
}

// The use tree of a Use node and the number of the node at each place, from the front of two lists; answers
// their lengths, or none where the tree is not lowered.
pub fn lower_use_tree<S: SyntaxSource>(
    source: &S,
    number: u32,
    tree: &mut [UseNode],
    mapping: &mut [u32],
) -> Result<Option<(usize, usize)>, Refusal>
    ensures { MatchResult result (λ o. IfSome o (λ n. (n.0 ≤ length tree.old) × (n.1 ≤ length mapping.old))) (λ _. (tree.new ≡ tree.old) × (mapping.new ≡ mapping.old)) }
{
    let item = use_item(source, number).ok_or(Refusal::NotFound)?;
    let Some(outermost) = child_of_kind(source, item, SyntaxKind::UseTree) else {
        return Ok(None);
    };
    let mut tables = TreeTables::new();
    let mut nodes: UseTreeMapping = Table::new(0);
    let mut lowering = Lowering {
        tables: &mut tables,
        source,
    };
    lowering.lower_use_tree(&mut nodes, outermost, MAX_USE_DEPTH)?;
    let count = tables.uses().len();
    if count == 0 {
        return Ok(None);
    }
    let numbers = nodes.as_slice();
    if count > tree.len() || numbers.len() > mapping.len() {
        return Err(Refusal::TooShort(Needed::UseTree {
            nodes: count,
            mapping: numbers.len(),
        }));
    }
    let _ = put_nodes(&tables, tree);
    mapping[..numbers.len()].copy_from_slice(numbers);
    Ok(Some((count, numbers.len())))
}
