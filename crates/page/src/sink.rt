// Where text goes: all of it is counted, and what finds room is written.
ghost use Rattle.std.specs.Prelude.{◌≡◌, [], ◌∷◌, IsOk};
ghost use Rattle.page.specs.Sinks.{held, said};

use std::fmt;

#[derive(Drop)]
pub struct Sink<'a> {
    // no heap, by a rule of the project: the caller's buffer, and a length that also counts what found no room
    buf: &'a mut [u8],
    len: usize,
}

impl<'a> Sink<'a> {
    pub fn new(buf: &'a mut [u8]) -> Sink<'a>
        ensures { held result ≡ (0, buf.old) }
    {
        Sink { buf, len: 0 }
    }
}

impl Sink<'_> {
    // How long the text is.
    pub fn len(&self) -> usize
        ensures { result ≡ (held self.now).0 }
    {
        self.len
    }

    pub fn put(&mut self, byte: u8)
        ensures { held self.new ≡ said (byte ∷ []) (held self.old) }
    {
        let len = self.len;
        if len < self.buf.len() {
            self.buf[len] = byte;
        }
        self.len = len.saturating_add(1);
    }

    pub fn say(&mut self, bytes: &[u8])
        ensures { held self.new ≡ said bytes.now (held self.old) }
    {
        for byte in bytes {
            self.put(*byte);
        }
    }
}

// Formatted text: no write fails.
impl fmt::Write for Sink<'_> {
    ghost write_str_gives = { λ old text new. held new ≡ said text (held old) };

    fn write_str(&mut self, s: &str) -> fmt::Result
        ensures never_fails { IsOk result }
        ensures ok { IsOk result → held self.new ≡ said s.now (held self.old) }
    {
        self.say(s.as_bytes());
        Ok(())
    }
}
