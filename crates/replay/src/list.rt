// The stored list: a count, then for each case its name, its form, its calls and the answers; numbers have four bytes, the lowest first.
ghost use Rattle.std.specs.Iterator.{at_most};

use std::alloc::{AllocError, Global};

// A text that is expected: its length and its check sum, and where it is short its bytes.
#[derive(Clone, Copy)]
pub struct Text<'a> {
    pub len: u32,
    pub sum: u32,
    pub whole: &'a [u8],
}

#[derive(Clone, Copy)]
pub struct Case<'a> {
    pub name: &'a [u8],
    pub form: &'a [u8],
    calls: &'a [u8],
    // of opening
    pub refusal: Option<u32>,
    pub dump: Text<'a>,
    pub print: Text<'a>,
}

impl Case<'_> {
    // The calls to be made.
    pub fn calls(&self, heap: Global) -> Result<Vec<u32>, AllocError> {
        let (calls, _) = self.calls.as_chunks::<4>();
        calls
            .iter()
            .map(|call| u32::from_le_bytes(*call))
            .collect(heap)
    }
}

// What is not read yet.
#[derive(Drop)]
struct Rest<'a>(&'a [u8]);

impl<'a> Rest<'a> {
    // The next bytes, as many as there are.
    fn bytes(&mut self, len: usize) -> &'a [u8] {
        let (bytes, rest) = self.0.split_at(len.min(self.0.len()));
        self.0 = rest;
        bytes
    }

    // The next number; 0 past the end.
    fn word(&mut self) -> u32 {
        let word = self.bytes(4).as_array::<4>();
        word.map_or(0, |word| u32::from_le_bytes(*word))
    }

    fn part(&mut self) -> &'a [u8] {
        let len = self.word() as usize;
        self.bytes(len)
    }

    fn text(&mut self) -> Text<'a> {
        Text {
            len: self.word(),
            sum: self.word(),
            whole: self.part(),
        }
    }

    fn case(&mut self) -> Case<'a> {
        let name = self.part();
        let form = self.part();
        let call_count = self.word() as usize;
        Case {
            name,
            form,
            calls: self.bytes(4 * call_count),
            refusal: Some(self.word()).filter(|number| *number != 0),
            dump: self.text(),
            print: self.text(),
        }
    }
}

// The cases that are left.
#[derive(Drop)]
pub struct Cases<'a> {
    count: u32,
    rest: Rest<'a>,
}

impl<'a> Cases<'a> {
    pub fn of(bytes: &'a [u8]) -> Cases<'a> {
        let mut rest = Rest(bytes);
        Cases {
            count: rest.word(),
            rest,
        }
    }

    // How many are left.
    pub fn count_left(&self) -> u32 {
        self.count
    }
}

impl<'a> Iterator for Cases<'a> {
    type Item = Case<'a>;

    ghost remaining = { λ cases. at_most cases.count };

    fn next(&mut self) -> Option<Case<'a>> {
        self.count = self.count.checked_sub(1)?;
        Some(self.rest.case())
    }
}
