// Sources of one shape, by size.
use crate::draft::Draft;
use syntax::kind::SyntaxKind;

// A node in a table of cases: its kind, end and mark.
pub(crate) type Row = [u32; 3];

pub(crate) fn rows(rows: &[Row]) -> Draft {
    let mut draft = Draft::new(u32::try_from(rows.len()).unwrap_or(u32::MAX), 0);
    for [kind, end, mark] in rows {
        draft.node(*kind, *end, *mark);
    }
    draft
}

// A file with so many nodes in all, the others functions.
pub(crate) fn flat(count: u32) -> Draft {
    let mut draft = Draft::new(count, 0);
    draft.node(SyntaxKind::File.into(), count, 0);
    for number in 1..count {
        draft.node(SyntaxKind::Fn.into(), number + 1, 0);
    }
    draft
}

// A file and so many modules, each within the one before.
pub(crate) fn nested(depth: u8) -> Draft {
    let count = depth as u32 + 1;
    let mut draft = Draft::new(count, 0);
    draft.node(SyntaxKind::File.into(), count, 0);
    for _ in 0..depth {
        draft.node(SyntaxKind::Module.into(), count, 0);
    }
    draft
}

// A file with a macro call, whose path has so many segments.
pub(crate) fn segments(count: u8) -> Draft {
    let end = count as u32 + 3;
    let mut draft = Draft::new(end, 0);
    draft.node(SyntaxKind::File.into(), end, 0);
    draft.node(SyntaxKind::MacroCall.into(), end, 0);
    draft.node(SyntaxKind::Path.into(), end, 0);
    for number in 3..end {
        draft.node(SyntaxKind::Segment.into(), number + 1, 0);
    }
    draft
}

// A file with nothing in it, and these texts.
fn file_and(texts: u32) -> Draft {
    let mut draft = Draft::new(1, texts);
    draft.node(SyntaxKind::File.into(), 1, 0);
    draft
}

// A file with nothing in it, and so many texts of two bytes.
pub(crate) fn texts(count: u16) -> Draft {
    let mut draft = file_and(count as u32);
    for number in 0..count {
        draft.text(&number.to_be_bytes());
    }
    draft
}

// A file with nothing in it, and two texts.
pub(crate) fn two(left: &[u8], right: &[u8]) -> Draft {
    let mut draft = file_and(2);
    draft.text(left);
    draft.text(right);
    draft
}
