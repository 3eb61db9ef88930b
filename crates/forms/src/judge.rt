// Whether what was read keeps the limits and the law.
ghost use Rattle.std.specs.Prelude.{◌≡◌, ◌+◌, ◌≤◌, length};
ghost use Rattle.std.specs.Str.{bytes_eq};
ghost use Rattle.syntax.specs.Law.{among, is_text, lawful_texts};
ghost use Rattle.forms.specs.Judged.{lawful_tables};
ghost use Rattle.forms.specs.Tables.{SpansWithin, spanned, spanned_all};

use crate::law::is_file;
use crate::tables::{Counts, Span, Tables};

const MAX_NODES: u32 = 4096;

const MAX_TEXTS: u32 = 1024;

const MAX_TEXT_LEN: usize = 255;

// Whether the text stands there in the bytes. The lengths first, since those of most texts differ.
fn is_same(text: &[u8], span: Span, bytes: &[u8]) -> bool
    requires { span.start + span.len ≤ length bytes.now }
    ensures { result ≡ bytes_eq text.now (spanned bytes.now span) }
{
    text.len() == span.len && text == span.text(bytes)
}

// Texts by their spans in the bytes.
#[derive(Clone, Copy)]
struct Texts<'b, 's> {
    bytes: &'b [u8],
    spans: &'s [Span],
    ghost within: { SpansWithin spans.now (length spans.now) (length bytes.now) },
}

impl<'b, 's> Texts<'b, 's> {
    // Whether one of them is that text. Not inlined, so that its loop has the registers to itself.
    #[inline(never)]
    fn has(self, text: &[u8]) -> bool
        ensures { result ≡ among text.now (spanned_all self.entry.bytes.now self.entry.spans.now) }
    {
        let Texts { bytes, spans } = self;
        (0..spans.len()).any(|later| is_same(text, spans[later], bytes))
    }

    // Whether each has 1 to 255 bytes, and no later one equals it.
    fn are_lawful(self) -> bool
        ensures { result ≡ lawful_texts (spanned_all self.entry.bytes.now self.entry.spans.now) }
    {
        let bytes = self.bytes;
        let mut rest = self.spans;
        while let Some((first, later)) = rest.split_first() {
            if !is_text(
                first.text(bytes),
                Texts {
                    bytes,
                    spans: later,
                },
            ) {
                return false;
            }
            rest = later;
        }
        true
    }
}

// Whether the text has 1 to 255 bytes, and is none of the later ones.
fn is_text(text: &[u8], later: Texts<'_, '_>) -> bool
    ensures { result ≡ is_text text.now (spanned_all later.entry.bytes.now later.entry.spans.now) }
{
    if text.is_empty() || text.len() > MAX_TEXT_LEN {
        return false;
    }
    !later.has(text)
}

impl Tables {
    pub(crate) fn is_lawful(&self, bytes: &[u8]) -> bool
        requires { self.now.counts.texts ≤ 1024 → SpansWithin self.now.texts self.now.counts.texts (length bytes.now) }
        ensures { result ≡ lawful_tables bytes.now self.now }
    {
        let Counts { nodes, texts } = self.counts;
        if nodes == 0 || nodes > MAX_NODES || texts > MAX_TEXTS {
            return false;
        }
        let spans = &self.texts[..texts as usize];
        Texts { bytes, spans }.are_lawful() && is_file(&self.nodes[..nodes as usize], texts)
    }
}
