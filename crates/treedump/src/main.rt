// treedump: makes the lowering calls that its arguments name over a packed form from standard input, and writes out the tree.
#![tactic(auto)]

use dump::calls::ROOT;
use dump::run::dump_packed;
use giltnewt::Refusal;
use std::io::{Read, Write};
use std::{env, io};

// Longer input is refused.
const MAX_BYTES: usize = 65_536;

// Longer text is refused.
const MAX_TEXT: usize = 4_194_304;

// `root`, or a node's number.
// The C interface has calls as numbers, so they are handed on as such: an enum with FromStr would go back to one.
fn call_of(word: &str) -> Option<u32> {
    if word == "root" {
        return Some(ROOT);
    }
    word.parse().ok()
}

fn main(rt: HostRuntime) -> io::Result<()> {
    let heap = rt.alloc();
    let mut calls = Vec::new(heap);
    for word in env::args(&rt)?.skip(1) {
        let Some(call) = call_of(word.as_str()) else {
            return rt.println("usage: treedump [root | NODE].. < FORM");
        };
        calls.push(call)?;
    }
    let mut input = Vec::new(heap);
    let _ = rt.stdin().take(65_537).read_to_end(&mut input)?;
    if input.len() > MAX_BYTES {
        return rt.println(Refusal::Form);
    }
    let mut text = vec![in heap; 0; MAX_TEXT]?;
    match dump_packed(&input, &calls, &mut text) {
        Ok(len) => rt.stdout().write_all(&text[0..len]),
        Err(refusal) => rt.println(refusal),
    }
}
