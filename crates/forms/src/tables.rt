// What a form is decoded into.
ghost use Rattle.std.specs.Prelude.{◌≡◌, ◌+◌, ◌≤◌, length, slice_set};

use syntax::node::Node;

// Where a text stands in the caller's bytes.
#[derive(Clone, Copy)]
pub struct Span {
    pub start: usize,
    pub len: usize,
}

impl Span {
    ghost use Rattle.forms.specs.Tables.{spanned};

    // The text that stands there.
    pub(crate) fn text(self, bytes: &[u8]) -> &[u8]
        requires { self.start + self.len ≤ length bytes.now }
        ensures { result.now ≡ spanned bytes.now self }
    {
        &bytes[self.start..self.start + self.len]
    }
}

// How many nodes and texts there are.
#[derive(Clone, Copy)]
pub struct Counts {
    pub nodes: u32,
    pub texts: u32,
}

// Arrays without a heap. A count stands beside, since it is read before it is judged and may be past the array's length.
#[derive(Clone, Copy)]
pub struct Tables {
    pub nodes: [Node; 4096],
    pub texts: [Span; 1024],
    pub counts: Counts,
    ghost room: { (length nodes ≡ 4096) × (length texts ≡ 1024) },
}

// What tables hold before anything is put into them.
pub(crate) const NO_TABLES: Tables = Tables {
    nodes: [NO_NODE; 4096],
    texts: [NO_SPAN; 1024],
    counts: Counts { nodes: 0, texts: 0 },
};

const NO_NODE: Node = Node {
    kind: 0,
    end: 0,
    text: 0,
    mark: 0,
    from: 0,
    to: 0,
};

const NO_SPAN: Span = Span { start: 0, len: 0 };

// Stores where there is room. The proof does not close by `get_mut` or `iter_mut`, whose contracts
// leave open what the slice ends as.
pub fn put<T: Copy>(table: &mut [T], index: usize, entry: T)
    ensures { table.new ≡ slice_set table.old index entry }
{
    if index < table.len() {
        table[index] = entry;
    }
}
