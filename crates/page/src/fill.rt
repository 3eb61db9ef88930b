// Filling a caller's buffer, or leaving it as it is.
ghost use Rattle.std.specs.Prelude.{◌≡◌, ◌≤◌, length, MatchResult};
ghost use Rattle.page.specs.Fills.{Filled, Declined};

use syntax::refusal::{Needed, Refusal};

// Writes into `buf`, and answers how long the text is. A first run without room finds what is refused, and the length.
pub fn fill<F: Fn(&mut [u8]) -> Result<usize, Refusal>>(
    buf: &mut [u8],
    write: F,
) -> Result<usize, Refusal>
    requires { F.IsAlwaysCallable write }
    // each call that fills a caller's buffer says this clause in full: its caller reads it there
    ensures fits { MatchResult result (λ len. len ≤ length buf.old) (λ _. buf.new ≡ buf.old) }
    ensures runs { MatchResult result (λ len. Filled (F.post write) buf.old len buf.new)
        (λ refusal. Declined (F.post write) buf.old refusal) }
{
    let needed = write(&mut [])?;
    if needed > buf.len() {
        return Err(Refusal::TooShort(Needed::Bytes(needed)));
    }
    let _ = write(buf);
    Ok(needed)
}
