// Use trees that are lowered by themselves, with the node of each place.
use crate::dumper::Dumper;
use imports::use_tree::{UseNode, lower_use_tree};
use syntax::kind::SyntaxKind;
use syntax::refusal::Refusal;
use syntax::source::SyntaxSource;
use syntax::walk::NodeRef;

// No heap: the nodes of a tree go to arrays.
const MAX_USE_NODES: usize = 1_024;

// No source has as many nodes.
const MOST_NODES: u32 = 5_000;

impl<S: SyntaxSource> Dumper<'_, '_, '_, '_, S> {
    // The tree of each Use node, and what the root and a number without a node answer.
    pub(crate) fn dump_lowered_uses(&mut self) -> Result<(), Refusal> {
        let mut tree = [UseNode::Glob { path: None }; MAX_USE_NODES];
        let mut mapping = [0; MAX_USE_NODES];
        // `map_while` would be no plainer: the first number without a node is lowered too, and would stand beside the chain.
        for number in 0..MOST_NODES {
            let Some(node) = self.source.node(number) else {
                return self.dump_lowered_use(number, &mut tree, &mut mapping);
            };
            let item = NodeRef { number, node };
            if number == 0 || item.is(SyntaxKind::Use) {
                self.dump_lowered_use(number, &mut tree, &mut mapping)?;
            }
        }
        Ok(())
    }

    fn dump_lowered_use(
        &mut self,
        number: u32,
        tree: &mut [UseNode],
        mapping: &mut [u32],
    ) -> Result<(), Refusal> {
        match lower_use_tree(self.source, number, tree, mapping) {
            Ok(Some((count, _))) => {
                self.say(format_args!("tree of {number} = {count}\n"));
                let nodes = tree.iter().zip(mapping.iter()).take(count);
                for (place, (node, number)) in nodes.enumerate() {
                    self.say(format_args!("place {place} node {number}"));
                    self.dump_use_tree(0, *node)?;
                    self.say("\n");
                }
            }
            Ok(None) => self.say(format_args!("tree of {number} = none\n")),
            Err(refusal) => self.say(format_args!("tree of {number} = {refusal}\n")),
        }
        Ok(())
    }
}
