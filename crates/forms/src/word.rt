// A syntax source over the word form.
ghost use Rattle.std.specs.Prelude.{◌≡◌, true, length};
ghost use Rattle.syntax.specs.Law.{lawful};
ghost use Rattle.forms.specs.Tables.{SpansWithin};
ghost use Rattle.forms.specs.Words.{text_count, words_end, spans_in, word_meaning};

pub mod open;
mod reader;

// It is read where it stands: nodes from the caller's words, texts from the caller's bytes.
#[derive(Clone, Copy)]
pub struct WordSource<'a, 'b> {
    words: &'a [u32],
    bytes: &'b [u8],
    ghost whole: { length words.now ≡ words_end words.now },
    ghost within: { SpansWithin (spans_in words.now) (text_count words.now) (length bytes.now) },
    ghost ruled: { lawful (word_meaning words.now bytes.now) ≡ true },
}
