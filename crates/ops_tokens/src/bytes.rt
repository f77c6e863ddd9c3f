//! The kinds of bytes, and searches for them.
ghost use Rattle.std.specs.Prelude.{◌≡◌, ◌<◌, ◌≤◌, length, position, IfSome};
ghost use Rattle.ops_tokens.specs.Bytes.{is_white, is_bad, is_digit, is_sign, is_bar};
ghost use Rattle.ops_tokens.specs.Tokens.{gap_end};

pub fn is_white(byte: u8) -> bool
    ensures { result ≡ is_white byte }
{
    byte == b' ' || byte == b'\t' || byte == b'\n' || byte == b'\r' || byte == 0x0C
}

pub fn is_bad(byte: u8) -> bool
    ensures { result ≡ is_bad byte }
{
    !is_white(byte) && !(b' ' <= byte && byte <= b'~')
}

pub fn is_digit(byte: u8) -> bool
    ensures { result ≡ is_digit byte }
{
    b'0' <= byte && byte <= b'9'
}

pub fn is_sign(byte: u8) -> bool
    ensures { result ≡ is_sign byte }
{
    byte == b'+' || byte == b'-'
}

/// The place of the first bar.
pub fn bar_in(bytes: &[u8]) -> Option<usize>
    ensures first { result ≡ position is_bar bytes.now }
    ensures within { IfSome result (λ n. n < length bytes.now) }
{
    bytes.iter().position(|byte| *byte == b'|')
}

/// The place of the first bad byte.
pub fn bad_in(bytes: &[u8]) -> Option<usize>
    ensures first { result ≡ position is_bad bytes.now }
    ensures within { IfSome result (λ n. n < length bytes.now) }
{
    bytes.iter().position(|byte| is_bad(*byte))
}

/// The place after the white space and the comments that stand at `from`.
pub fn gap_end(text: &[u8], from: usize) -> usize
    requires { from ≤ length text.now }
    ensures end { result ≡ gap_end text.now from }
    ensures within { result ≤ length text.now }
{
    let mut inside = false;
    for at in from..text.len() {
        let byte = text[at];
        if inside {
            inside = byte != b'\n';
        } else if byte == b';' {
            inside = true;
        } else if !is_white(byte) {
            return at;
        }
    }
    text.len()
}
