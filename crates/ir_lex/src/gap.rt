// Blanks and comments.
ghost use Rattle.std.specs.Prelude.{◌≡◌, ◌+◌, ◌≤◌, length, drop, false};
ghost use Rattle.ir_lex.specs.Gaps.{slash_next};
ghost use Rattle.ir_lex.specs.Scanner.{gap_step, gap_len};

// Whether a byte goes on with a gap, and if it does whether the next one stands in a comment.
fn gap_step(commenting: bool, byte: u8, slash_next: bool) -> Option<bool>
    ensures { result ≡ gap_step commenting byte slash_next }
{
    if commenting {
        Some(byte != b'\n')
    } else if byte == b'/' && slash_next {
        Some(true)
    } else if matches!(byte, b' ' | b'\t' | b'\r' | b'\n') {
        Some(false)
    } else {
        None
    }
}

fn is_slash(bytes: &[u8], at: usize) -> bool
    requires { at ≤ length bytes.now }
    ensures { result ≡ slash_next (drop at bytes.now) }
{
    at < bytes.len() && bytes[at] == b'/'
}

/// How many bytes of blanks and comments stand at the front.
#[tactic(auto, using(crate::proofs::GapSteps::gap_none, crate::proofs::GapSteps::gap_more, crate::proofs::GapSteps::gap_stop))]
pub(crate) fn gap_len(bytes: &[u8]) -> usize
    ensures len { result ≡ gap_len false bytes.now }
    ensures within { result ≤ length bytes.now }
{
    let mut end = 0;
    let mut commenting = false;
    while end < bytes.len() {
        match gap_step(commenting, bytes[end], is_slash(bytes, end + 1)) {
            Some(next) => commenting = next,
            None => break,
        }
        end += 1;
    }
    end
}
