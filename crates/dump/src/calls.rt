// Lowering calls by number, and what they answer.
use item_tree::lowering::Ctx;
use items::ids::ModItemId;
use std::fmt;
use syntax::refusal::Refusal;
use syntax::source::SyntaxSource;

// Root lowering. A number, as C names the calls.
pub const ROOT: u32 = 4_294_967_295;

#[derive(Clone, Copy)]
pub(crate) enum Call {
    Root,
    // of the node that has this number
    Node(u32),
}

// The answer of a call that is accepted.
#[derive(Clone, Copy)]
pub(crate) enum Answer {
    // how many items stand at the top level
    Count(u32),
    // none where the node is passed over
    Item(Option<ModItemId>),
}

impl From<u32> for Call {
    fn from(number: u32) -> Call {
        match number {
            ROOT => Call::Root,
            node => Call::Node(node),
        }
    }
}

impl Call {
    pub(crate) fn make<S: SyntaxSource>(
        self,
        ctx: &mut Ctx,
        source: &S,
    ) -> Result<Answer, Refusal> {
        match self {
            Call::Root => ctx.lower_module_items(source).map(Answer::Count),
            Call::Node(node) => ctx.lower_mod_item(source, node).map(Answer::Item),
        }
    }
}

impl fmt::Display for Call {
    fn fmt<W: fmt::Write>(&self, f: &mut fmt::Formatter<W>) -> fmt::Result {
        match self {
            Call::Root => write!(f, "root"),
            Call::Node(node) => write!(f, "node {node}"),
        }
    }
}

impl fmt::Display for Answer {
    fn fmt<W: fmt::Write>(&self, f: &mut fmt::Formatter<W>) -> fmt::Result {
        match self {
            Answer::Count(count) => write!(f, "{count}"),
            Answer::Item(Some(id)) => write!(f, "{}", id.index),
            Answer::Item(None) => write!(f, "none"),
        }
    }
}
