// Calls from C: each takes byte slices and keeps nothing between calls.
#![tactic(auto)]

ghost use Rattle.std.specs.Prelude.{◌≡◌, MatchResult};
ghost use Rattle.capi.specs.Answers.{length_beside};
ghost use Rattle.syntax.specs.Refusals.{number_of};

use dump::run::{dump_packed, dump_whole, print_calls};
use giltnewt::{
    Ctx, ItemTree, Needed, PackedSource, Refusal, SyntaxSource, print_item_tree, print_packed,
};

// A refusal's number, or 0, and a length: that of the text, or with 9 the one that is needed.
// C has no Result, so a refusal is its number.
#[repr(C)]
pub struct Answer {
    pub refusal: u32,
    pub len: usize,
}

impl From<Result<usize, Refusal>> for Answer {
    ghost from_gives = { λ answer given. MatchResult answer (λ len. (given.refusal ≡ 0) × (given.len ≡ len)) (λ refusal. (given.refusal ≡ number_of refusal) × (given.len ≡ length_beside refusal)) };

    fn from(answer: Result<usize, Refusal>) -> Answer {
        match answer {
            Ok(len) => Answer { refusal: 0, len },
            Err(refusal) => Answer {
                refusal: refusal.into(),
                len: match refusal {
                    Refusal::TooShort(Needed::Bytes(len)) => len,
                    _ => 0,
                },
            },
        }
    }
}

// Opens a packed form; answers the refusal's number, or 0.
#[unsafe(no_mangle)]
pub extern "C" fn giltnewt_open(bytes: &[u8]) -> u32 {
    PackedSource::least().open(bytes).err().map_or(0, u32::from)
}

// Makes lowering calls and writes out all that the tree holds.
#[unsafe(no_mangle)]
pub extern "C" fn giltnewt_dump(bytes: &[u8], calls: &[u32], text: &mut [u8]) -> Answer {
    dump_packed(bytes, calls, text).into()
}

// The same, and what expanding, lowering use trees by themselves and merging answer.
#[unsafe(no_mangle)]
pub extern "C" fn giltnewt_dump_whole(bytes: &[u8], calls: &[u32], text: &mut [u8]) -> Answer {
    dump_whole(bytes, calls, text).into()
}

// Makes lowering calls and prints the tree.
#[unsafe(no_mangle)]
pub extern "C" fn giltnewt_print_calls(bytes: &[u8], calls: &[u32], text: &mut [u8]) -> Answer {
    print_calls(bytes, calls, text).into()
}

// Lowers the root and prints the tree.
#[unsafe(no_mangle)]
pub extern "C" fn giltnewt_print(bytes: &[u8], text: &mut [u8]) -> Answer {
    print_packed(bytes, text).into()
}

// How many of the rounds are accepted.
fn often<F: FnMut(&u32) -> bool>(rounds: u32, is_accepted: F) -> u32
    requires { (state : F) (round : _) → F.pre state round }
{
    (0..rounds).filter(is_accepted).count() as u32
}

// A new tree of all that a source holds.
fn lowered<S: SyntaxSource>(source: &S) -> Result<ItemTree, Refusal> {
    let mut ctx = Ctx::new();
    let _ = ctx.lower_module_items(source)?;
    Ok(ctx.finalize())
}

// Opens a form many times over; answers how often it was opened.
#[unsafe(no_mangle)]
pub extern "C" fn giltnewt_open_often(bytes: &[u8], rounds: u32) -> u32 {
    often(rounds, |_| PackedSource::least().open(bytes).is_ok())
}

// Opens a form once, then lowers its root into new trees; answers how often that was accepted.
#[unsafe(no_mangle)]
pub extern "C" fn giltnewt_lower_often(bytes: &[u8], rounds: u32) -> u32 {
    let mut source = PackedSource::least();
    match source.open(bytes) {
        Ok(()) => often(rounds, |_| lowered(&source).is_ok()),
        Err(_) => 0,
    }
}

// Opens and lowers a form once, then prints the tree; answers how often it was printed.
#[unsafe(no_mangle)]
pub extern "C" fn giltnewt_print_often(bytes: &[u8], rounds: u32, text: &mut [u8]) -> u32 {
    let mut source = PackedSource::least();
    if source.open(bytes).is_err() {
        return 0;
    }
    match lowered(&source) {
        Ok(tree) => often(rounds, |_| print_item_tree(&tree, &source, text).is_ok()),
        Err(_) => 0,
    }
}
