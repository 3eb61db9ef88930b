// Opening the word form, and reading it through the interface of sources.
ghost use Rattle.std.specs.Prelude.{◌≡◌, [], ◌∷◌, MatchResult, OnErr};
ghost use Rattle.forms.specs.WordMeant.{meaning_of};
ghost use Rattle.forms.specs.WordOpening.{WordOpens, WordRefuses};

use super::WordSource;
use super::reader::{HEADER, NODE_WORDS, SPAN_WORDS, node_from, read_words, span_from};
use crate::tables::NO_TABLES;
use syntax::node::Node;
use syntax::refusal::Refusal;
use syntax::source::SyntaxSource;

// A file with nothing in it, and no texts.
static LEAST: [u32; 8] = [1, 0, 0, 1, 0, 0, 0, 0];

impl<'a, 'b> SyntaxSource for WordSource<'a, 'b> {
    ghost meaning = { λ source. meaning_of source };

    ghost law = { λ source. source.ruled };

    fn node(&self, number: u32) -> Option<Node> {
        let words = self.words;
        if number < words[0] {
            Some(node_from(words, HEADER + NODE_WORDS * number as usize))
        } else {
            None
        }
    }

    fn text(&self, number: u32) -> Option<&[u8]> {
        let words = self.words;
        if number == 0 || number > words[1] {
            return None;
        }
        let first = HEADER + NODE_WORDS * words[0] as usize;
        let span = span_from(words, first + SPAN_WORDS * (number as usize - 1));
        Some(span.text(self.bytes))
    }
}

impl<'a, 'b> WordSource<'a, 'b> {
    // The least source: a file with nothing in it.
    pub fn least() -> WordSource<'a, 'b>
        ensures { meaning_of result ≡ record { nodes = record { kind = 0; end = 1; text = 0; mark = 0; from = 0; to = 0 } ∷ []; texts = [] } }
    {
        WordSource {
            words: &LEAST,
            bytes: b"",
        }
    }

    // Opens the word form in this slot, or says why not and leaves the slot as it was. No plainer
    // as one function with the packed form: what is read and what is stored differ.
    pub fn open(&mut self, words: &'a [u32], bytes: &'b [u8]) -> Result<(), Refusal>
        ensures answers { MatchResult result (λ _. WordOpens words.now bytes.now (meaning_of self.new)) (λ e. WordRefuses words.now bytes.now e) }
        ensures keeps { OnErr result (self.new ≡ self.old) }
    {
        let mut tables = NO_TABLES;
        read_words(words, bytes, &mut tables)?;
        if !tables.is_lawful(bytes) {
            return Err(Refusal::Law);
        }
        *self = WordSource { words, bytes };
        Ok(())
    }
}
