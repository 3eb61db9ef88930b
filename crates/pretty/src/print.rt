// The text of a whole tree.
ghost use Rattle.std.specs.Prelude.{◌≡◌, ◌<◌, ◌≤◌, length, MatchResult};

use crate::printer::Printer;
use item_tree::tree::ItemTree;
use page::fill::fill;
use page::indent::Indent;
use page::out::Out;
use syntax::refusal::Refusal;
use syntax::source::SyntaxSource;

// Items stand at most this deep.
const MAX_DEPTH: u32 = 40;

// One run over the tree: it writes what finds room in `buf`, and answers how long the text is.
fn print_into<S: SyntaxSource>(
    tree: &ItemTree,
    source: &S,
    buf: &mut [u8],
) -> Result<usize, Refusal> {
    let mut printer = Printer {
        out: Out::new(buf),
        tree: tree.tables(),
        source,
    };
    let mut indent = Indent::new();
    if let Some(attrs) = tree.top_level_attrs() {
        printer.print_attrs(&indent, attrs, b"#![")?;
        printer.out.blank();
    }
    for id in tree.top_level_items() {
        printer.print_mod_item(&mut indent, *id, MAX_DEPTH)?;
    }
    Ok(printer.out.finish())
}

// The text of a tree over the texts of its source, from the front of `buf`; answers its length.
pub fn print_item_tree<S: SyntaxSource>(
    tree: &ItemTree,
    source: &S,
    buf: &mut [u8],
) -> Result<usize, Refusal>
    ensures { MatchResult result (λ len. len ≤ length buf.old) (λ _. buf.new ≡ buf.old) }
{
    fill(buf, |room| print_into(tree, source, room))
}
