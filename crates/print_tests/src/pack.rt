// Writing small packed forms for the cases.
use forms_tests::writer::PackedWriter;

// A node of a case: kind, end, text and mark; its range is empty.
pub(crate) type Row = [u32; 4];

// The packed form of these nodes, and of texts that stand one after another with a `/` after each.
pub(crate) fn pack(rows: &[Row], texts: &[u8]) -> PackedWriter {
    let count = texts.iter().filter(|byte| **byte == b'/').count();
    let mut packed = PackedWriter::new();
    packed.number((rows.len() & 0xffff) as u32);
    packed.number((count & 0xffff) as u32);
    for row in rows {
        let [kind, end, text, mark] = *row;
        for number in [kind, end, text, mark, 0, 0] {
            packed.number(number);
        }
    }
    for text in texts.split(|byte| *byte == b'/').take(count) {
        packed.text(text);
    }
    packed
}
