// replay: compares the port with answers of the Rust that are stored in data/cases.
#![tactic(auto)]

use crate::list::Cases;
use crate::replayed::agrees;
use std::io::Write;
use std::{fs, io};

mod list;
mod replayed;

// Longer than any text of the list.
const ROOM: usize = 262_144;

fn main(rt: HostRuntime) -> io::Result<()> {
    let heap = rt.alloc();
    let bytes = fs::read(&rt, "cases")?;
    let mut text = vec![in heap; 0; ROOM]?;
    let cases = Cases::of(&bytes);
    let count = cases.count_left();
    let mut agreed: u32 = 0;
    for case in cases {
        let calls = case.calls(heap)?;
        if agrees(&case, &calls, &mut text) {
            agreed = agreed.saturating_add(1);
        } else {
            rt.stdout().write_all(b"differs: ")?;
            rt.stdout().write_all(case.name)?;
            rt.stdout().write_all(b"\n")?;
        }
    }
    println!(rt; "{agreed} of {count} stored cases agree")
}
