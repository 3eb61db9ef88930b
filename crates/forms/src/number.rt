// Numbers in the fewest groups of seven bits, the lowest first.
ghost use Rattle.std.specs.Prelude.{◌≡◌, ℕ, ◌+◌, ◌^◌, ◌<◌, ◌≤◌, List, ◌++◌, length, drop, Ok, Err, MatchResult};
ghost use Rattle.forms.specs.Numbers.{encoded, NumberAt, HigherAt, NumberFaulty, HigherFaulty};
ghost use Rattle.forms.specs.Faults.{refusal_of};

use syntax::refusal::Refusal;

#[derive(Clone, Copy, PartialEq, Eq, Debug)]
pub enum NumberFault {
    // the bytes end before the last group
    CutShort,
    // a fifth byte above 15: over 32 bits
    TooWide,
    // the last of several groups is 0
    NotShortest,
}

impl From<NumberFault> for Refusal {
    ghost from_gives = { λ fault refusal. refusal ≡ refusal_of fault };

    fn from(fault: NumberFault) -> Refusal {
        match fault {
            NumberFault::CutShort => Refusal::Form,
            NumberFault::TooWide | NumberFault::NotShortest => Refusal::Number,
        }
    }
}

// A fifth byte has the top four of 32 bits.
const MAX_FIFTH: u8 = 15;

// The groups above the lowest: one, after at most `more` others.
fn read_higher(bytes: &[u8], at: usize, more: u8) -> Result<(u32, usize), NumberFault>
    requires { more ≤ 3 }
    ensures { MatchResult result (λ read. HigherAt bytes.now at more read.0 read.1) (λ fault. HigherFaulty more (drop at bytes.now) fault) }
{
    if at >= bytes.len() {
        return Err(NumberFault::CutShort);
    }
    let byte = bytes[at];
    if more == 0 && byte > MAX_FIFTH {
        return Err(NumberFault::TooWide);
    }
    if byte == 0 {
        return Err(NumberFault::NotShortest);
    }
    if byte < 128 {
        return Ok((byte as u32, at + 1));
    }
    let (higher, next) = read_higher(bytes, at + 1, more - 1)?;
    Ok(((byte - 128) as u32 + 128 * higher, next))
}

// The number that stands at `at`, and the place after it.
pub fn read_number(bytes: &[u8], at: usize) -> Result<(u32, usize), NumberFault>
    ensures reads { MatchResult result (λ read. NumberAt bytes.now at read.0 read.1) (λ fault. NumberFaulty (drop at bytes.now) fault) }
    ensures accepts { (value : ℕ) (rest : List ℕ) → value < 2 ^ 32 → drop at bytes.now ≡ encoded value ++ rest → result ≡ Ok (value, at + length (encoded value)) }
{
    if at >= bytes.len() {
        return Err(NumberFault::CutShort);
    }
    let byte = bytes[at];
    if byte < 128 {
        return Ok((byte as u32, at + 1));
    }
    let (higher, next) = read_higher(bytes, at + 1, 3)?;
    Ok(((byte - 128) as u32 + 128 * higher, next))
}
