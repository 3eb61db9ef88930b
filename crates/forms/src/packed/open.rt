// Opening the packed form, and reading it through the interface of sources.
ghost use Rattle.std.specs.Prelude.{◌≡◌, [], ◌∷◌, MatchResult, OnErr};
ghost use Rattle.forms.specs.Meant.{meaning_of};
ghost use Rattle.forms.specs.PackedOpening.{PackedOpens, PackedRefuses};

use super::PackedSource;
use super::reader::read_form;
use crate::tables::NO_TABLES;
use syntax::node::Node;
use syntax::refusal::Refusal;
use syntax::source::SyntaxSource;

impl<'a> SyntaxSource for PackedSource<'a> {
    ghost meaning = { λ source. meaning_of source };

    ghost law = { λ source. source.ruled };

    fn node(&self, number: u32) -> Option<Node> {
        if number < self.tables.counts.nodes {
            Some(self.tables.nodes[number as usize])
        } else {
            None
        }
    }

    fn text(&self, number: u32) -> Option<&[u8]> {
        if number == 0 || number > self.tables.counts.texts {
            return None;
        }
        Some(self.tables.texts[number as usize - 1].text(self.bytes))
    }
}

impl<'a> PackedSource<'a> {
    // The least source: a file with nothing in it.
    pub fn least() -> PackedSource<'a>
        ensures { meaning_of result ≡ record { nodes = record { kind = 0; end = 1; text = 0; mark = 0; from = 0; to = 0 } ∷ []; texts = [] } }
    {
        let mut tables = NO_TABLES;
        tables.nodes[0].end = 1;
        tables.counts.nodes = 1;
        PackedSource { bytes: b"", tables }
    }

    // Opens the packed form in this slot, or says why not and leaves the slot as it was.
    pub fn open(&mut self, bytes: &'a [u8]) -> Result<(), Refusal>
        ensures answers { MatchResult result (λ _. PackedOpens bytes.now (meaning_of self.new)) (λ e. PackedRefuses bytes.now e) }
        ensures keeps { OnErr result (self.new ≡ self.old) }
    {
        let mut tables = NO_TABLES;
        read_form(bytes, &mut tables)?;
        if !tables.is_lawful(bytes) {
            return Err(Refusal::Law);
        }
        *self = PackedSource { bytes, tables };
        Ok(())
    }
}
