// What a case answers. The texts go to arrays: a case that allocates could fail.
use crate::pack::{Row, pack};
use giltnewt::{Refusal, print_packed};

// Whether the printed tree of these nodes and texts is this text.
pub(crate) fn prints(rows: &[Row], texts: &[u8], expected: &[u8]) -> bool {
    let packed = pack(rows, texts);
    let mut text = [0; 4096];
    match print_packed(packed.bytes(), &mut text) {
        Ok(len) => &text[0..len] == expected,
        Err(_) => false,
    }
}

// The number of the refusal, or 0.
fn refusal_number(answer: Result<usize, Refusal>) -> u32 {
    answer.err().map_or(0, u32::from)
}

// The number of the refusal where the text has so much room, or 0.
pub(crate) fn refused(rows: &[Row], texts: &[u8], room: usize) -> u32 {
    let packed = pack(rows, texts);
    let mut text = [0; 4096];
    refusal_number(print_packed(packed.bytes(), &mut text[0..room.min(4096)]))
}

// The number of the refusal for a file of so many constants, or 0.
pub(crate) fn refused_consts(count: u32) -> u32 {
    let count = count.min(599);
    let mut rows = [[16, 0, 0, 0]; 600];
    for (i, row) in rows.iter_mut().enumerate() {
        row[1] = i as u32 + 1;
    }
    rows[0] = [0, count + 1, 0, 0];
    let packed = pack(&rows[0..count as usize + 1], b"");
    let mut text = [0; 65_536];
    refusal_number(print_packed(packed.bytes(), &mut text))
}

// The number of the refusal for these bytes, or 0.
pub(crate) fn refused_bytes(bytes: &[u8]) -> u32 {
    let mut text = [0; 4096];
    refusal_number(print_packed(bytes, &mut text))
}
