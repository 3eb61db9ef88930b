// A source that is written in both forms at once, number by number.
use crate::writer::PackedWriter;
use forms::packed::PackedSource;
use forms::word::WordSource;
use syntax::refusal::Refusal;
use tables::table::Table;

const MAX_WORDS: usize = 32_768;

const MAX_BYTES: usize = 65_536;

#[derive(Drop)]
pub(crate) struct Draft {
    packed: PackedWriter,
    words: Table<u32, MAX_WORDS>,
    // the texts, beside the words
    texts: Table<u8, MAX_BYTES>,
}

impl Draft {
    pub(crate) fn new(nodes: u32, texts: u32) -> Draft {
        let mut draft = Draft {
            packed: PackedWriter::new(),
            words: Table::new(0),
            texts: Table::new(0),
        };
        draft.number(nodes);
        draft.number(texts);
        draft
    }

    fn word(&mut self, word: u32) {
        let _ = self.words.push(word);
    }

    fn number(&mut self, number: u32) {
        self.word(number);
        self.packed.number(number);
    }

    // A node without a text, and with an empty range.
    pub(crate) fn node(&mut self, kind: u32, end: u32, mark: u32) {
        for number in [kind, end, 0, mark, 0, 0] {
            self.number(number);
        }
    }

    pub(crate) fn text(&mut self, text: &[u8]) {
        let start = self.texts.len() as u32;
        self.word(start);
        self.word(u32::try_from(text.len()).unwrap_or(u32::MAX));
        self.packed.text(text);
        let _ = self.texts.extend_from_slice(text);
    }

    // What the packed form answers when it is opened.
    pub(crate) fn open_packed(&self) -> Result<(), Refusal> {
        open_packed(self.packed.bytes())
    }

    // What the word form answers.
    pub(crate) fn open_words(&self) -> Result<(), Refusal> {
        open_words(self.words.as_slice(), self.texts.as_slice())
    }
}

pub(crate) fn open_packed(bytes: &[u8]) -> Result<(), Refusal> {
    let mut source = PackedSource::least();
    source.open(bytes)
}

pub(crate) fn open_words(words: &[u32], bytes: &[u8]) -> Result<(), Refusal> {
    let mut source = WordSource::least();
    source.open(words, bytes)
}
