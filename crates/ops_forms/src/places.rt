//! Lines and columns.
ghost use Rattle.std.specs.Prelude.{◌≡◌, ◌≤◌, ◌+◌, ◌==◌, not, length, count_by, take_while, reverse};
ghost use Rattle.ops_grammar.specs.Places.{line_of, column_of};

/// The position of a byte in a text: its line and its column, counted from 1.
#[derive(Clone, Copy, Debug, PartialEq, Eq)]
pub struct Place {
    pub line: u64,
    pub column: u64,
}

/// The place of a byte, or of the text's end. Takes time in proportion to the number of bytes before it.
pub fn place_of(text: &[u8], at: usize) -> Place
    requires { at ≤ length text.now }
    ensures line { result.line ≡ line_of text.now at }
    ensures column { result.column ≡ column_of text.now at }
{
    Place {
        line: line_of(&text[..at]),
        column: column_of(&text[..at]),
    }
}

// one more than the number of LF bytes
fn line_of(before: &[u8]) -> u64
    ensures { result ≡ 1 + count_by (λ b. b == 10) before.now }
{
    1 + before.iter().filter(|byte| **byte == b'\n').count() as u64
}

// one more than the number of bytes since the last LF
fn column_of(before: &[u8]) -> u64
    ensures { result ≡ 1 + length (take_while (λ b. not (b == 10)) (reverse before.now)) }
{
    let mut column = 1;
    for byte in before {
        column = if *byte == b'\n' { 1 } else { column + 1 };
    }
    column
}
