// Reading the packed form into tables, from the front.
ghost use Rattle.std.specs.Prelude.{ℕ, ◌≤◌, List, [], length, drop, MatchResult};
ghost use Rattle.std.specs.List.{flat_map};
ghost use Rattle.std.proofs.Common.{lit<};
ghost use Rattle.forms.specs.Form.{Field, Narrow, node_fields, text_fields, FormOf};
ghost use Rattle.forms.specs.Reading.{Any, OfLength, Stands, Fails, RowsRead, FormRead, Unread};
ghost use Rattle.forms.specs.Tables.{no_node, spanned, span_end};
ghost use Rattle.syntax.specs.declared.node.Node.{Node as NodeRecord};

use crate::number::read_number;
use crate::tables::{Counts, Span, Tables, put};
use syntax::node::Node;
use syntax::refusal::Refusal;

// A thing of the packed form, as a table keeps it.
pub(crate) trait Packed: Copy {
    // what it means over the bytes, and the fields of that
    ghost Meant: { Type 0 };

    ghost meant: { List ℕ → Self → Meant };

    ghost fields: { Meant → List Field };

    // that it lies within so many bytes
    ghost Within: { ℕ → Self → Type 0 };

    ghost some: { Meant };

    ghost narrow: { Narrow (fields some) };

    fn read(bytes: &[u8], at: usize) -> Result<(Self, usize), Refusal>
        ensures { MatchResult result (λ read. Stands Any fields (drop at bytes.now) (meant bytes.now read.0) (drop read.1 bytes.now) × Within (length bytes.now) read.0) (λ e. Fails Any fields (drop at bytes.now) e) };
}

impl Packed for Node {
    ghost Meant = { NodeRecord };

    ghost meant = { λ _ x. x };

    ghost fields = { node_fields };

    ghost Within = { λ _ _. Unit {0} };

    ghost some = { no_node };

    ghost narrow = { (lit< tt, (lit< tt, (lit< tt, (lit< tt, (lit< tt, (lit< tt, tt)))))) };

    fn read(bytes: &[u8], at: usize) -> Result<(Node, usize), Refusal> {
        let (kind, at) = read_number(bytes, at)?;
        let (end, at) = read_number(bytes, at)?;
        let (text, at) = read_number(bytes, at)?;
        let (mark, at) = read_number(bytes, at)?;
        let (from, at) = read_number(bytes, at)?;
        let (to, at) = read_number(bytes, at)?;
        let node = Node {
            kind,
            end,
            text,
            mark,
            from,
            to,
        };
        Ok((node, at))
    }
}

impl Packed for Span {
    ghost Meant = { List ℕ };

    ghost meant = { spanned };

    ghost fields = { text_fields };

    ghost Within = { λ size span. span_end span ≤ size };

    ghost some = { [] };

    ghost narrow = { (lit< tt, tt) };

    // A text's length, and then its bytes.
    fn read(bytes: &[u8], at: usize) -> Result<(Span, usize), Refusal> {
        let (len, start) = read_number(bytes, at)?;
        let len = len as usize;
        if len > bytes.len() - start {
            return Err(Refusal::Form);
        }
        Ok((Span { start, len }, start + len))
    }
}

// So many of them, into the table as far as it goes.
fn read_rows<T: Packed>(
    bytes: &[u8],
    start: usize,
    count: u32,
    table: &mut [T],
) -> Result<usize, Refusal>
    ensures { MatchResult result (λ next. RowsRead (T.meant bytes.now) T.fields (T.Within (length bytes.now)) bytes.now start count table.new next) (λ e. Fails (OfLength count) (flat_map T.fields) (drop start bytes.now) e) }
{
    let mut at = start;
    // no plainer over the table: the count may be past its length
    for i in 0..count as usize {
        let (row, next) = T::read(bytes, at)?;
        put(table, i, row);
        at = next;
    }
    Ok(at)
}

// The whole form. Counts and lengths are trusted here and judged later, so that a form that is
// cut short is refused as such however absurd its counts are.
pub fn read_form(bytes: &[u8], tables: &mut Tables) -> Result<(), Refusal>
    ensures { MatchResult result (λ _. FormRead (FormOf bytes.now) bytes.now tables.new) (λ e. Unread bytes.now e) }
{
    let (nodes, at) = read_number(bytes, 0)?;
    let (texts, at) = read_number(bytes, at)?;
    let at = read_rows(bytes, at, nodes, &mut tables.nodes)?;
    let at = read_rows(bytes, at, texts, &mut tables.texts)?;
    if at < bytes.len() {
        return Err(Refusal::Form);
    }
    tables.counts = Counts { nodes, texts };
    Ok(())
}
