// Reading the word form: counts, nodes, and where the texts are.
ghost use Rattle.std.specs.Prelude.{◌≡◌, ◌+◌, ◌*◌, ◌≤◌, ◌⊎◌, length, MatchResult};
ghost use Rattle.syntax.specs.declared.refusal.Refusal.TheVariants.{Form};
ghost use Rattle.forms.specs.Reading.{FormRead};
ghost use Rattle.forms.specs.WordOpening.{WordsCut, WordsLong, BadWords};
ghost use Rattle.forms.specs.WordReading.{Counted, NodesCopied, SpansCopied, SpanPast};
ghost use Rattle.forms.specs.Words.{WordFormOf, node_from, span_from};

use crate::tables::{Counts, Span, Tables, put};
use syntax::node::Node;
use syntax::refusal::Refusal;

// The words before the nodes, and those of a node and of a span.
pub const HEADER: usize = 2;

pub const NODE_WORDS: usize = 6;

pub const SPAN_WORDS: usize = 2;

pub(crate) fn node_from(words: &[u32], at: usize) -> Node
    requires { at + 6 ≤ length words.now }
    ensures { result ≡ node_from words.now at }
{
    Node {
        kind: words[at],
        end: words[at + 1],
        text: words[at + 2],
        mark: words[at + 3],
        from: words[at + 4],
        to: words[at + 5],
    }
}

pub(crate) fn span_from(words: &[u32], at: usize) -> Span
    requires { at + 2 ≤ length words.now }
    ensures { result ≡ span_from words.now at }
{
    Span {
        start: words[at] as usize,
        len: words[at + 1] as usize,
    }
}

// The counts, where there are as many words as they say.
fn read_counts(words: &[u32]) -> Result<Counts, Refusal>
    ensures { MatchResult result (λ counts. Counted words.now counts.nodes counts.texts) (λ e. (e ≡ Form) × (WordsCut words.now ⊎ WordsLong words.now)) }
{
    if words.len() < HEADER {
        return Err(Refusal::Form);
    }
    let nodes = words[0];
    let texts = words[1];
    if words.len() != HEADER + NODE_WORDS * nodes as usize + SPAN_WORDS * texts as usize {
        return Err(Refusal::Form);
    }
    Ok(Counts { nodes, texts })
}

// So many nodes, into the table as far as it goes.
fn read_nodes(words: &[u32], count: u32, table: &mut [Node])
    requires { 2 + 6 * count ≤ length words.now }
    ensures { NodesCopied words.now count table.new }
{
    // no plainer by chunks: a number gives its place, as where one node is asked for
    for i in 0..count as usize {
        put(table, i, node_from(words, HEADER + NODE_WORDS * i));
    }
}

// So many spans of texts within the bytes, into the table as far as it goes.
fn read_spans(
    words: &[u32],
    start: usize,
    count: u32,
    bytes: &[u8],
    table: &mut [Span],
) -> Result<(), Refusal>
    requires { start + 2 * count ≤ length words.now }
    ensures { MatchResult result (λ _. SpansCopied words.now bytes.now start count table.new) (λ e. (e ≡ Form) × SpanPast words.now bytes.now start count) }
{
    // no plainer by chunks, as with nodes
    for i in 0..count as usize {
        let span = span_from(words, start + SPAN_WORDS * i);
        if span.len > bytes.len() || span.start > bytes.len() - span.len {
            return Err(Refusal::Form);
        }
        put(table, i, span);
    }
    Ok(())
}

// The whole form.
pub(crate) fn read_words(words: &[u32], bytes: &[u8], tables: &mut Tables) -> Result<(), Refusal>
    ensures { MatchResult result (λ _. FormRead (WordFormOf words.now bytes.now) bytes.now tables.new) (λ e. (e ≡ Form) × BadWords words.now bytes.now) }
{
    let counts = read_counts(words)?;
    let start = HEADER + NODE_WORDS * counts.nodes as usize;
    read_spans(words, start, counts.texts, bytes, &mut tables.texts)?;
    read_nodes(words, counts.nodes, &mut tables.nodes);
    tables.counts = counts;
    Ok(())
}
