// One case: what the port answers against what is stored.
use crate::list::{Case, Text};
use dump::run::{dump_packed, print_calls};
use giltnewt::{Needed, Refusal};

// A check sum of bytes.
fn sum(bytes: &[u8]) -> u32 {
    bytes.iter().fold(2_166_136_261, |sum, byte| {
        (sum ^ u32::from(*byte)).wrapping_mul(16_777_619)
    })
}

impl Text<'_> {
    // Whether a text is the one that is expected.
    fn is(&self, text: &[u8]) -> bool {
        text.len() == self.len as usize
            && sum(text) == self.sum
            && (self.whole.is_empty() || self.whole == text)
    }
}

// Whether the answer is that a buffer is too short, and how long it has to be.
fn is_too_short(answer: Result<usize, Refusal>, len: u32) -> bool {
    answer == Err(Refusal::TooShort(Needed::Bytes(len as usize)))
}

// Whether a call answers the form of a case as is stored, with room and without.
fn answers<F: Fn(&[u8], &[u32], &mut [u8]) -> Result<usize, Refusal>>(
    call: F,
    case: &Case<'_>,
    calls: &[u32],
    expected: Text<'_>,
    text: &mut [u8],
) -> bool
    requires { F.IsAlwaysCallable call }
{
    match (call(case.form, calls, text), case.refusal) {
        (Err(refusal), Some(number)) => u32::from(refusal) == number,
        (Ok(len), None) => {
            // no text is empty
            text.get(..len).is_some_and(|text| expected.is(text))
                && is_too_short(call(case.form, calls, &mut []), expected.len)
        }
        (Err(_), None) | (Ok(_), Some(_)) => false,
    }
}

// Whether all answers to a case are the stored ones.
pub fn agrees(case: &Case<'_>, calls: &[u32], text: &mut [u8]) -> bool {
    answers(dump_packed, case, calls, case.dump, text)
        && answers(print_calls, case, calls, case.print, text)
}
