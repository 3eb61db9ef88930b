// One node of a syntax source: six numbers.
#[derive(Clone, Copy, PartialEq, Eq, Debug)]
pub struct Node {
    pub kind: u32,
    // the number after the last descendant
    pub end: u32,
    // a text's number, or 0 for none
    pub text: u32,
    pub mark: u32,
    // byte offsets
    pub from: u32,
    pub to: u32,
}
