// The layout of the text that is printed: lines that are indented, blank lines, newlines that are held back.
use crate::indent::Indent;
use crate::sink::Sink;
use itoa::Buffer;

#[derive(Drop)]
pub struct Out<'a> {
    // the text up to the last byte that is no newline
    sink: Sink<'a>,
    // the newlines after it, which are not written yet
    newlines: usize,
    // whether the next byte begins a line
    needs_indent: bool,
}

impl<'a> Out<'a> {
    pub fn new(buf: &'a mut [u8]) -> Out<'a> {
        Out {
            sink: Sink::new(buf),
            newlines: 0,
            needs_indent: true,
        }
    }
}

impl Out<'_> {
    // A byte that is no newline: the newlines before it are written first.
    fn put_after_newlines(&mut self, byte: u8) {
        for _ in 0..self.newlines {
            self.sink.put(b'\n');
        }
        self.newlines = 0;
        self.sink.put(byte);
    }

    fn begin_line(&mut self, level: usize) {
        if self.newlines == 0 && self.sink.len() > 0 {
            self.newlines = 1;
        }
        for _ in 0..level.saturating_mul(4) {
            self.put_after_newlines(b' ');
        }
    }

    fn byte(&mut self, indent: &Indent, byte: u8) {
        if self.needs_indent {
            self.begin_line(indent.level);
            self.needs_indent = false;
        }
        if byte == b'\n' {
            self.newlines = self.newlines.saturating_add(1);
            self.needs_indent = true;
        } else {
            self.put_after_newlines(byte);
        }
    }

    pub fn say(&mut self, indent: &Indent, bytes: &[u8]) {
        for byte in bytes {
            self.byte(indent, *byte);
        }
    }

    // A number in decimal.
    pub fn number(&mut self, indent: &Indent, number: u32) {
        self.say(indent, Buffer::new().format(number).as_bytes());
    }

    // Ensures that a blank line comes before the next text.
    pub fn blank(&mut self) {
        if self.sink.len() > 0 && self.newlines < 2 {
            self.newlines = 2;
        }
    }

    // Ends the text with one newline, in place of those that it ends with; answers its length.
    pub fn finish(&mut self) -> usize {
        self.sink.put(b'\n');
        self.sink.len()
    }

    // Takes the last newlines away.
    pub fn trim(&mut self) {
        self.newlines = 0;
    }
}
