// Runs of lowering calls over a packed form.
ghost use Rattle.std.specs.Prelude.{◌≡◌, ◌≤◌, length, MatchResult};

use crate::calls::Call;
use crate::dumper::{Dumper, Extent};
use forms::packed::PackedSource;
use item_tree::lowering::Ctx;
use page::fill::fill;
use page::sink::Sink;
use pretty::print::print_item_tree;
use std::fmt::Write;
use syntax::refusal::Refusal;

// Writes what finds room in `buf`, and answers how long the text is.
fn dump_into(
    bytes: &[u8],
    calls: &[u32],
    extent: Extent,
    buf: &mut [u8],
) -> Result<usize, Refusal> {
    let mut source = PackedSource::least();
    source.open(bytes)?;
    let mut out = Sink::new(buf);
    let mut ctx = Ctx::new();
    for number in calls {
        let call = Call::from(*number);
        let _ = match call.make(&mut ctx, &source) {
            Ok(answer) => writeln!(out, "{call} = {answer}"),
            Err(refusal) => writeln!(out, "{call} = {refusal}"),
        };
    }
    let tree = ctx.finalize();
    let mut dumper = Dumper {
        out: &mut out,
        tables: tree.tables(),
        source: &source,
        extent,
    };
    dumper.dump_tree(&tree)?;
    if extent == Extent::Whole {
        dumper.dump_lowered_uses()?;
        dumper.dump_merges()?;
    }
    Ok(out.len())
}

// The answers of the calls and all that the finalized tree holds, from the front of `text`; answers the length.
pub fn dump_packed(bytes: &[u8], calls: &[u32], text: &mut [u8]) -> Result<usize, Refusal>
    ensures { MatchResult result (λ len. len ≤ length text.old) (λ _. text.new ≡ text.old) }
{
    fill(text, |buf| dump_into(bytes, calls, Extent::Tree, buf))
}

// The same with the imports of each use item, each use tree by itself, and the lists of neighbours merged.
pub fn dump_whole(bytes: &[u8], calls: &[u32], text: &mut [u8]) -> Result<usize, Refusal>
    ensures { MatchResult result (λ len. len ≤ length text.old) (λ _. text.new ≡ text.old) }
{
    fill(text, |buf| dump_into(bytes, calls, Extent::Whole, buf))
}

// The printed text of the tree that the calls make, from the front of `text`; answers its length.
pub fn print_calls(bytes: &[u8], calls: &[u32], text: &mut [u8]) -> Result<usize, Refusal>
    ensures { MatchResult result (λ len. len ≤ length text.old) (λ _. text.new ≡ text.old) }
{
    let mut source = PackedSource::least();
    source.open(bytes)?;
    let mut ctx = Ctx::new();
    for number in calls {
        let _ = Call::from(*number).make(&mut ctx, &source);
    }
    let tree = ctx.finalize();
    print_item_tree(&tree, &source, text)
}
