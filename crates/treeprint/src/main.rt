// treeprint: prints the item tree of a packed form that it reads from standard input.
#![tactic(auto)]

use giltnewt::{Refusal, print_packed};
use std::io;
use std::io::{Read, Write};

// Longer input is refused, and so is longer text.
const MAX_BYTES: usize = 65_536;

fn main(rt: HostRuntime) -> io::Result<()> {
    let heap = rt.alloc();
    let mut input = Vec::new(heap);
    let _ = rt.stdin().take(65_537).read_to_end(&mut input)?;
    if input.len() > MAX_BYTES {
        return rt.println(Refusal::Form);
    }
    let mut text = vec![in heap; 0; MAX_BYTES]?;
    match print_packed(&input, &mut text) {
        Ok(len) => rt.stdout().write_all(&text[0..len]),
        Err(refusal) => rt.println(refusal),
    }
}
