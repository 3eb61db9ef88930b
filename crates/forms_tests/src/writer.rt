// Writing a packed form, number by number.
#![tactic(auto, using(crate::proofs::Appending::appending), unfolding(crate::specs::Writing::written))]

ghost use Rattle.std.specs.Prelude.{◌≡◌, [], ◌∷◌, ◌++◌, length, min};
ghost use Rattle.forms.specs.Numbers.{encoded};
ghost use Rattle.forms_tests.specs.Writing.{written, appended};

use tables::table::Table;

const MAX_BYTES: usize = 65_536;

// What finds no room is lost, and the form is then one that is cut short.
#[derive(Drop)]
pub struct PackedWriter {
    bytes: Table<u8, MAX_BYTES>,
}

impl PackedWriter {
    pub fn new() -> PackedWriter
        ensures { written result ≡ [] }
    {
        PackedWriter {
            bytes: Table::new(0),
        }
    }

    fn byte(&mut self, byte: u8)
        ensures { written self.new ≡ appended (written self.old) (byte ∷ []) }
    {
        let _ = self.bytes.push(byte);
    }

    pub fn number(&mut self, number: u32)
        ensures { written self.new ≡ appended (written self.old) (encoded number) }
    {
        let mut rest = number;
        while rest >= 128 {
            self.byte((rest % 128) as u8 + 128);
            rest /= 128;
        }
        self.byte(rest as u8);
    }

    // A text's length, and its bytes.
    pub fn text(&mut self, text: &[u8])
        ensures { written self.new ≡ appended (written self.old) (encoded (min (length text.now) 4294967295) ++ text.now) }
    {
        self.number(u32::try_from(text.len()).unwrap_or(u32::MAX));
        for byte in text {
            self.byte(*byte);
        }
    }

    pub fn bytes(&self) -> &[u8]
        ensures { result.now ≡ written self.now }
    {
        self.bytes.as_slice()
    }
}
