// The law of nodes: they are a file's tree, by the table of kinds.
ghost use Rattle.std.specs.Prelude.{◌≡◌, ◌≤◌, true, false, length, MatchOption};
ghost use Rattle.syntax.specs.Kinds.{number_of};
ghost use Rattle.syntax.specs.Trees.{between};
ghost use Rattle.syntax.specs.Law.{sound, is_child, place_after, are_children, lawful_nodes};

use syntax::kind::SyntaxKind;
use syntax::node::Node;
use table::{count_fits, is_root, is_single, mark_fits, place_of, takes_child};

mod table;

// The root has depth 0.
const MAX_DEPTH: u32 = 40;

// A node that keeps what every node keeps, wherever it stands.
#[derive(Clone, Copy)]
struct SoundNode {
    node: Node,
    kind: SyntaxKind,
    ghost kind_is: { number_of kind ≡ node.kind },
}

impl SoundNode {
    #[inline(always)]
    fn of(node: Node, texts: u32) -> Option<SoundNode>
        ensures { MatchOption result (sound texts node ≡ false) (λ s. (s.node ≡ node) × (sound texts node ≡ true)) }
    {
        let Ok(kind) = SyntaxKind::try_from(node.kind) else {
            return None;
        };
        if mark_fits(kind, node.mark) && node.text <= texts && node.from <= node.to {
            Some(SoundNode { node, kind })
        } else {
            None
        }
    }

    // The node as a child, if it is sound, and this one has such a child, at the place `least` or
    // later.
    #[inline(always)]
    fn child(self, node: Node, least: u8, texts: u32) -> Option<SoundNode>
        ensures { MatchOption result (is_child texts self.node least node ≡ false) (λ s. (s.node ≡ node) × (is_child texts self.node least node ≡ true)) }
    {
        let child = SoundNode::of(node, texts)?;
        if takes_child(self.kind, self.node.mark, child.kind) && least <= place_of(child.kind) {
            Some(child)
        } else {
            None
        }
    }

    // The least place of what comes after `child`.
    #[tactic(auto, unfolding(syntax::specs::Law::place_after))]
    fn place_after(self, child: SoundNode) -> u8
        ensures { result ≡ place_after self.node child.node }
    {
        let place = place_of(child.kind);
        if is_single(self.kind, child.kind) {
            place + 1
        } else {
            place
        }
    }
}

// Whether the nodes from `first` to the end of `parent` are its children, with at most so many
// levels.
fn are_children(nodes: &[Node], texts: u32, parent: &SoundNode, first: u32, levels: u32) -> bool
    requires { (first ≤ parent.now.node.end) × (parent.now.node.end ≤ length nodes.now) }
    ensures { result ≡ are_children texts parent.now.node 0 0 levels first (between nodes.now first parent.now.node.end) }
{
    let end = parent.node.end;
    let mut at = first;
    let mut least = 0;
    let mut count = 0;
    // no plainer as an iterator: each step goes to an end that is judged first
    while at < end {
        let node = nodes[at as usize];
        if levels == 0 || node.end <= at || node.end > end {
            return false;
        }
        let Some(child) = parent.child(node, least, texts) else {
            return false;
        };
        if !are_children(nodes, texts, &child, at + 1, levels - 1) {
            return false;
        }
        least = parent.place_after(child);
        count += 1;
        at = node.end;
    }
    count_fits(parent.kind, parent.node.mark, count)
}

// Whether the nodes are those of a file, where there are so many texts.
pub(crate) fn is_file(nodes: &[Node], texts: u32) -> bool
    requires { length nodes.now ≤ 4096 }
    ensures { result ≡ lawful_nodes texts nodes.now }
{
    let [first, ..] = nodes else {
        return false;
    };
    let Some(root) = SoundNode::of(*first, texts) else {
        return false;
    };
    if !is_root(root.kind) || root.node.end != nodes.len() as u32 {
        return false;
    }
    are_children(nodes, texts, &root, 1, MAX_DEPTH)
}
