// Attribute lists, one put before another.
use crate::dumper::Dumper;
use items::attrs::{AttrsOrCfg, AttrsOwned};
use lower::lowering::Lowering;
use syntax::refusal::Refusal;
use syntax::source::SyntaxSource;
use syntax::walk::{NodeRef, children};
use tree_tables::tree::TreeTables;

// How many pairs are written at most.
const MAX_PAIRS: usize = 8;

fn merged<S: SyntaxSource>(
    tables: &mut TreeTables,
    source: &S,
    first: NodeRef,
    second: NodeRef,
) -> Result<AttrsOrCfg, Refusal> {
    let empty = AttrsOrCfg::Enabled {
        attrs: AttrsOwned::new(0, 0),
    };
    let mut lowering = Lowering { tables, source };
    let first = lowering.lower_attrs(first)?.unwrap_or(empty);
    let second = lowering.lower_attrs(second)?.unwrap_or(empty);
    lowering.tables.merge(first, second)
}

impl<S: SyntaxSource> Dumper<'_, '_, '_, '_, S> {
    // The lists of the root and of its first items, each merged with that of the next.
    pub(crate) fn dump_merges(&mut self) -> Result<(), Refusal> {
        let source = self.source;
        let Some(node) = source.node(0) else {
            return Ok(());
        };
        let mut first = NodeRef { number: 0, node };
        let items = children(source, first).filter(|child| child.is_item());
        for second in items.take(MAX_PAIRS) {
            self.dump_merge(first, second)?;
            first = second;
        }
        Ok(())
    }

    fn dump_merge(&mut self, first: NodeRef, second: NodeRef) -> Result<(), Refusal> {
        self.say(format_args!("merged {} {}", first.number, second.number));
        let mut tables = TreeTables::new();
        match merged(&mut tables, self.source, first, second) {
            Ok(attrs) => {
                self.say("\n");
                let mut dumper = Dumper {
                    out: &mut *self.out,
                    tables: &tables,
                    source: self.source,
                    extent: self.extent,
                };
                dumper.dump_attrs(attrs)
            }
            Err(refusal) => Ok(self.say(format_args!(" = {refusal}\n"))),
        }
    }
}
